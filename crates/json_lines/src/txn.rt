//! Transactions.

ghost use Rattle.std.specs.Prelude.{◌≡◌, ◌≤◌, map, length, IfOk};
ghost use Rattle.json.specs.Value.{value_view, items_view};
ghost use Rattle.keyspace.specs.storage.Fields.{txn_fields};
ghost use Rattle.keyspace.specs.declared.batch.TheConstants.{MAX_TXNS};
ghost use Rattle.json_lines.specs.Batches.{txn_in, txn_members, report_in, txns_in};
ghost use Rattle.json_lines.specs.Values.{Reads, each, number_in, required_member};
ghost use Rattle.json_lines.specs.Names.{name_of};

use crate::cause::Cause;
use crate::items::few_items_of;
use crate::member::Member;
use crate::members::{check_members, required};
use crate::place::LinePlace;
use crate::range::ranges_of;
use crate::refusal::LineRefusal;
use crate::scalar::{bool_of, number_of};
use json::Value;
use keyspace::{MAX_TXNS, Sequence, Txn};
use std::alloc::Global;

const MEMBERS: [Member; 4] = [
    Member::Snapshot,
    Member::Report,
    Member::Reads,
    Member::Writes,
];

/// Reads the transactions of a batch.
#[tactic(auto, unfolding(crate::specs::Values::list_in))]
pub fn txns_of(alloc: Global, value: &Value<'_>, place: LinePlace) -> Result<Vec<Txn>, LineRefusal>
    ensures reads { Reads (λ txns. map txn_fields txns.items) result
        (txns_in (value_view value.now)) }
    ensures few { IfOk result (λ txns. length txns.items ≤ MAX_TXNS) }
{
    let items = few_items_of(value, MAX_TXNS, Cause::ManyTxns, place)?;
    each_txn(alloc, items, place)
}

fn each_txn(alloc: Global, items: &[Value<'_>], place: LinePlace) -> Result<Vec<Txn>, LineRefusal>
    ensures reads { Reads (λ txns. map txn_fields txns.items) result
        (each txn_in (items_view items.now)) }
    ensures count { IfOk result (λ txns. length txns.items ≡ length items.now) }
{
    let mut txns = Vec::with_capacity(alloc, items.len())?;
    for index in 0..items.len() {
        txns.push(txn_of(alloc, &items[index], place.item(index))?)?;
    }
    Ok(txns)
}

#[tactic(auto, unfolding(crate::specs::Batches::txn_in))]
fn txn_of(alloc: Global, value: &Value<'_>, place: LinePlace) -> Result<Txn, LineRefusal>
    ensures reads { Reads txn_fields result (txn_in (value_view value.now)) }
{
    check_members(alloc, value, &MEMBERS, place)?;
    members_of(alloc, value, place)
}

// Reads a transaction whose members are known to be the right ones.
#[tactic(auto, unfolding(crate::specs::Batches::txn_members))]
fn members_of(alloc: Global, value: &Value<'_>, place: LinePlace) -> Result<Txn, LineRefusal>
    ensures reads { Reads txn_fields result (txn_members (value_view value.now)) }
{
    let snapshot = number_at(value, Member::Snapshot, place)?;
    let report = report_of(value, place)?;
    let at = place.member(Member::Reads);
    let reads = ranges_of(alloc, required(value, Member::Reads, at)?, at)?;
    let at = place.member(Member::Writes);
    let writes = ranges_of(alloc, required(value, Member::Writes, at)?, at)?;
    if snapshot < 0 {
        return Err(LineRefusal::new(place.member(Member::Snapshot), Cause::Negative));
    }
    Ok(Txn::new(
        snapshot,
        report,
        Sequence::new(reads),
        Sequence::new(writes),
    ))
}

/// Reads the integer of a required member.
pub fn number_at(value: &Value<'_>, member: Member, place: LinePlace) -> Result<i64, LineRefusal>
    ensures reads { Reads (λ n. n) result
        (required_member number_in (name_of member) (value_view value.now)) }
{
    let place = place.member(member);
    number_of(required(value, member, place)?, place)
}

// Reads whether a report is asked for. It isn't where nothing is said.
fn report_of(value: &Value<'_>, place: LinePlace) -> Result<bool, LineRefusal>
    ensures reads { Reads (λ b. b) result (report_in (value_view value.now)) }
{
    match value.get(Member::Report.name()) {
        Some(report) => bool_of(report, place.member(Member::Report)),
        None => Ok(false),
    }
}
