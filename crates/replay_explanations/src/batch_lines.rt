//! The lines of the batch that a history has added last.

ghost use Rattle.std.specs.Prelude.{◌≡◌, ◌++◌, ◌<◌, ◌≤ℤ◌, pos, OnOk, Some, flat_map, length};
ghost use Rattle.std.specs.Prelude.{IfOk, IfSome, slice_get};
ghost use Rattle.keyspace.specs.Judged.{edge};
ghost use Rattle.keyspace.specs.declared.batch.Batch.{Batch as BatchValue};
ghost use Rattle.keyspace.specs.declared.txn.Txn.{Txn};
ghost use Rattle.explanations.specs.Explains.{explaining_newest, newest_of};
ghost use Rattle.replay_explanations.specs.Lines.{conflict_lines, indices_from, lines_from};
ghost use Rattle.replay_explanations.specs.Lines.{read_line, txn_lines, entire};

use crate::form::{ExplanationForm, put_conflict, put_too_old};
use crate::json::member_of;
use explanations::History;
use keyspace::{Batch, Entry, RangesRef, Verdict};
use std::alloc::{AllocError, Global};

// Returns the lines of the batch that was added last, whose reply has these entries. There are none
// if no batch was added.
pub(crate) fn lines_of(
    alloc: Global,
    form: ExplanationForm,
    history: &History,
    entries: &[Entry],
) -> Result<Vec<u8>, AllocError>
    requires entries { IfSome (newest_of history.now.kept) (λ batch.
        length entries.now ≡ length batch.txns) }
    ensures text { IfOk result (λ text. (batch : BatchValue)
        → newest_of history.now.kept ≡ Some batch
        → text.items ≡ entire form (lines_from form history.now.window history.now.kept batch 0
        batch.txns entries.now)) }
{
    let mut text = Vec::new(alloc);
    if let Some(batch) = history.newest() {
        put_lines(&mut text, form, history, batch, entries)?;
    }
    match form {
        ExplanationForm::Words => Ok(text),
        ExplanationForm::Json => member_of(alloc, &text),
    }
}

// Appends the lines of the batch.
fn put_lines(
    out: &mut Vec<u8>,
    form: ExplanationForm,
    history: &History,
    batch: &Batch,
    entries: &[Entry],
) -> Result<(), AllocError>
    requires newest { newest_of history.now.kept ≡ Some batch.now }
    requires entries { length entries.now ≡ length batch.now.txns }
    ensures text { OnOk result (out.new.items ≡ out.old.items ++ lines_from form history.now.window
        history.now.kept batch.now 0 batch.now.txns entries.now) }
{
    for txn in 0..entries.len() {
        put_txn(out, form, history, batch, txn, &entries[txn])?;
    }
    Ok(())
}

// Appends the lines of the transaction at the index.
fn put_txn(
    out: &mut Vec<u8>,
    form: ExplanationForm,
    history: &History,
    batch: &Batch,
    txn: usize,
    entry: &Entry,
) -> Result<(), AllocError>
    requires newest { newest_of history.now.kept ≡ Some batch.now }
    requires within { txn < length batch.now.txns }
    ensures text { OnOk result ((t : Txn) → slice_get batch.now.txns txn ≡ Some t
        → out.new.items ≡ out.old.items ++ txn_lines form history.now.window history.now.kept
        batch.now txn t entry.now.verdict) }
{
    match entry.verdict {
        Verdict::Committed => Ok(()),
        Verdict::TooOld => {
            let snapshot = batch.txns.snapshot(txn);
            put_too_old(
                out,
                form,
                txn,
                snapshot,
                oldest_readable(history.window(), batch),
            )
        }
        Verdict::Conflict => put_conflicts(out, form, history, batch, txn),
    }
}

// Returns the lowest version that a transaction of the batch may read.
fn oldest_readable(window: i64, batch: &Batch) -> i64
    requires least_window { pos 1 ≤ℤ window }
    ensures edge { result ≡ edge window batch.now }
{
    (batch.version - window).max(0)
}

// Appends the lines of a transaction in conflict.
fn put_conflicts(
    out: &mut Vec<u8>,
    form: ExplanationForm,
    history: &History,
    batch: &Batch,
    txn: usize,
) -> Result<(), AllocError>
    requires newest { newest_of history.now.kept ≡ Some batch.now }
    requires within { txn < length batch.now.txns }
    ensures text { OnOk result ((t : Txn) → slice_get batch.now.txns txn ≡ Some t
        → out.new.items ≡ out.old.items ++ conflict_lines form history.now.kept batch.now txn t) }
{
    let transaction = batch.txns.txn(txn);
    put_all(out, form, history, batch.version, txn, &transaction.reads)
}

// Appends the lines of all read ranges.
fn put_all(
    out: &mut Vec<u8>,
    form: ExplanationForm,
    history: &History,
    version: i64,
    txn: usize,
    reads: &RangesRef<'_>,
) -> Result<(), AllocError>
    ensures text { OnOk result (out.new.items ≡ out.old.items ++ flat_map (λ read.
        read_line form version txn read (slice_get reads.now read)
        (explaining_newest history.now.kept txn read)) (indices_from 0 (length reads.now))) }
{
    for read in 0..reads.len() {
        put_read_line(out, form, history, version, txn, reads, read)?;
    }
    Ok(())
}

// Appends the line of the read range at the index, if there is one and a write explains it.
fn put_read_line(
    out: &mut Vec<u8>,
    form: ExplanationForm,
    history: &History,
    version: i64,
    txn: usize,
    reads: &RangesRef<'_>,
    read: usize,
) -> Result<(), AllocError>
    ensures text { OnOk result (out.new.items ≡ out.old.items
        ++ read_line form version txn read (slice_get reads.now read)
        (explaining_newest history.now.kept txn read)) }
{
    if read >= reads.len() {
        return Ok(());
    }
    match history.explain(txn, read) {
        Some(explanation) => {
            let range = reads.get(read);
            put_conflict(out, form, version, txn, read, &range, &explanation)
        }
        None => Ok(()),
    }
}
