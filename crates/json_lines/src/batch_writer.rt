//! Batches as lines.

ghost use Rattle.std.specs.Prelude.{◌≡◌, ◌++◌, Some, IfOk, OnOk, map};
ghost use Rattle.std.specs.Int.{w64};
ghost use Rattle.std.specs.Int.RustNames.{FitsSigned};
ghost use Rattle.std.specs.List.{All};
ghost use Rattle.json.specs.Tree.{json_tokens};
ghost use Rattle.keyspace.specs.storage.Fields.{txn_fields};
ghost use Rattle.wire.specs.Fields.{batch_fields};
ghost use Rattle.wire.specs.Spelling.{BatchHolds};
ghost use Rattle.json_lines.specs.Batches.{batch_of};
ghost use Rattle.json_lines.specs.Written.{all_tokens, number_tokens, txn_json, batch_json};
ghost use Rattle.json_lines.specs.Written.{batch_line, list_json};

use crate::member::Member;
use crate::range_writer::put_ranges;
use json::Writer;
use keyspace::{Batch, TxnRef, Txns};
use std::alloc::{AllocError, Global};

/// Writes the line of a batch, without its line feed. The line reads back as the same batch.
pub fn write_batch(alloc: Global, batch: &Batch) -> Result<Vec<u8>, AllocError>
    ensures text { IfOk result (λ line. line.items ≡ batch_line (batch_fields batch.now)) }
    ensures reads_back { IfOk result (λ line. batch_of line.items ≡ Some (batch_fields batch.now)) }
{
    let mut writer = Writer::new(Vec::new(alloc));
    put_batch(alloc, &mut writer, batch)?;
    Ok(writer.into_inner())
}

#[tactic(auto, unfolding(crate::specs::Written::batch_json))]
fn put_batch(alloc: Global, writer: &mut Writer, batch: &Batch) -> Result<(), AllocError>
    ensures tokens { OnOk result (writer.new.tokens
        ≡ writer.old.tokens ++ (json_tokens (batch_json (batch_fields batch.now)))) }
    ensures before { writer.new.before ≡ writer.old.before }
    ensures holds { OnOk result (BatchHolds (batch_fields batch.now)) }
{
    writer.begin_object()?;
    put_number(writer, Member::Previous, batch.previous)?;
    put_number(writer, Member::Version, batch.version)?;
    put_number(writer, Member::Received, batch.received)?;
    writer.key(Member::Transactions.name())?;
    put_txns(alloc, writer, &batch.txns)?;
    writer.end_object()?;
    Ok(())
}

/// Writes a member that is an integer.
pub fn put_number(writer: &mut Writer, member: Member, number: i64) -> Result<(), AllocError>
    ensures tokens { OnOk result (writer.new.tokens
        ≡ writer.old.tokens ++ (number_tokens member number)) }
    ensures before { writer.new.before ≡ writer.old.before }
    ensures fits { OnOk result (FitsSigned w64 number) }
{
    writer.key(member.name())?;
    writer.i64(number)
}

// Writes the transactions of a batch.
fn put_txns(alloc: Global, writer: &mut Writer, txns: &Txns) -> Result<(), AllocError>
    ensures tokens { OnOk result (writer.new.tokens
        ≡ writer.old.tokens ++ (json_tokens (list_json txn_json (map txn_fields txns.now)))) }
    ensures before { writer.new.before ≡ writer.old.before }
    ensures fit { OnOk result (All (λ txn. FitsSigned w64 txn.snapshot) txns.now) }
{
    writer.begin_array()?;
    each_txn(alloc, writer, txns)?;
    writer.end_array()?;
    Ok(())
}

fn each_txn(alloc: Global, writer: &mut Writer, txns: &Txns) -> Result<(), AllocError>
    ensures tokens { OnOk result (writer.new.tokens
        ≡ writer.old.tokens ++ (all_tokens txn_json (map txn_fields txns.now))) }
    ensures before { writer.new.before ≡ writer.old.before }
    ensures fit { OnOk result (All (λ txn. FitsSigned w64 txn.snapshot) txns.now) }
{
    let mut form = Vec::new(alloc);
    for index in 0..txns.len() {
        put_txn(writer, &mut form, &txns.txn(index))?;
    }
    Ok(())
}

#[tactic(auto, unfolding(crate::specs::Written::txn_json))]
fn put_txn(writer: &mut Writer, form: &mut Vec<u8>, txn: &TxnRef<'_>) -> Result<(), AllocError>
    ensures tokens { OnOk result (writer.new.tokens
        ≡ writer.old.tokens ++ (json_tokens (txn_json (txn_fields txn.now)))) }
    ensures before { writer.new.before ≡ writer.old.before }
    ensures fits { OnOk result (FitsSigned w64 txn.now.snapshot) }
{
    writer.begin_object()?;
    put_number(writer, Member::Snapshot, txn.snapshot)?;
    writer.key(Member::Report.name())?;
    writer.boolean(txn.marked)?;
    writer.key(Member::Reads.name())?;
    put_ranges(writer, form, &txn.reads)?;
    writer.key(Member::Writes.name())?;
    put_ranges(writer, form, &txn.writes)?;
    writer.end_object()?;
    Ok(())
}
