//! Batches.

ghost use Rattle.std.specs.Prelude.{◌≡◌, ◌≢◌, IfOk, IfErr, OnOk, Some, None};
ghost use Rattle.std.specs.Str.{IsUtf8};
ghost use Rattle.json.specs.Json.{document};
ghost use Rattle.json.specs.Scratch.{room};
ghost use Rattle.json.specs.Value.{value_view};
ghost use Rattle.wire.specs.Fields.{batch_fields};
ghost use Rattle.json_lines.specs.Batches.{batch_in, batch_members, batch_of, received_in};
ghost use Rattle.json_lines.specs.Batches.{are_versions};
ghost use Rattle.json_lines.specs.Memory.{TakesMemory};
ghost use Rattle.json_lines.specs.Values.{Reads, if_so};
ghost use Rattle.json_lines.specs.declared.cause.Cause.TheVariants as cause;

use crate::cause::Cause;
use crate::document::value_of;
use crate::member::Member;
use crate::members::{check_members, required};
use crate::place::LinePlace;
use crate::refusal::LineRefusal;
use crate::scalar::number_of;
use crate::txn::{number_at, txns_of};
use json::{Scratch, Value};
use keyspace::{Batch, Txns};
use std::alloc::Global;

const MEMBERS: [Member; 4] = [
    Member::Previous,
    Member::Version,
    Member::Received,
    Member::Transactions,
];

/// Reads the batch of a line, which is one JSON object. The scratch is kept from line to line, so
/// that its memory is taken once.
pub fn read_batch(alloc: Global, line: &[u8], scratch: &mut Scratch) -> Result<Batch, LineRefusal>
    ensures batch { IfOk result (λ batch. batch_of line.now ≡ Some (batch_fields batch)) }
    ensures text { OnOk result (IsUtf8 line.now) }
    ensures refused { IfErr result (λ refusal. refusal.cause ≢ cause.Memory → IsUtf8 line.now
        → batch_of line.now ≡ None) }

    // A line that isn't JSON, and takes no memory, isn't reported as a failed allocation.
    ensures memory { IfErr result (λ refusal. refusal.cause ≡ cause.Memory
        → document line.now ≡ None
        → TakesMemory line.now (room scratch.old)) }
{
    let value = value_of(alloc, line, scratch)?;
    batch_in_value(alloc, &value)
}

#[tactic(auto, unfolding(crate::specs::Batches::batch_in))]
fn batch_in_value(alloc: Global, value: &Value<'_>) -> Result<Batch, LineRefusal>
    ensures reads { Reads batch_fields result (batch_in (value_view value.now)) }
{
    check_members(alloc, value, &MEMBERS, LinePlace::Line)?;
    members_of(alloc, value)
}

// Reads a batch whose members are known to be the right ones.
#[tactic(auto, unfolding(crate::specs::Batches::batch_members))]
fn members_of(alloc: Global, value: &Value<'_>) -> Result<Batch, LineRefusal>
    ensures reads { Reads batch_fields result (batch_members (value_view value.now)) }
{
    let previous = number_at(value, Member::Previous, LinePlace::Line)?;
    let version = number_at(value, Member::Version, LinePlace::Line)?;
    let received = received_of(value)?;
    let at = LinePlace::Member(Member::Transactions);
    let txns = txns_of(alloc, required(value, Member::Transactions, at)?, at)?;
    check_versions(previous, version, received)?;
    let txns = Txns::new(alloc, txns)?;
    Ok(Batch::new(previous, version, received, txns))
}

// Reads the last received version. It is -1 where nothing is said.
fn received_of(value: &Value<'_>) -> Result<i64, LineRefusal>
    ensures reads { Reads (λ n. n) result (received_in (value_view value.now)) }
{
    match value.get(Member::Received.name()) {
        Some(received) => number_of(received, LinePlace::Member(Member::Received)),
        None => Ok(-1),
    }
}

// Looks that a batch may have these versions.
fn check_versions(previous: i64, version: i64, received: i64) -> Result<(), LineRefusal>
    ensures reads { Reads (λ done. done) result (if_so (are_versions previous version received)) }
{
    if previous < -1 {
        return Err(LineRefusal::new(LinePlace::Member(Member::Previous), Cause::BelowNone));
    }
    if version <= previous {
        return Err(LineRefusal::new(LinePlace::Member(Member::Version), Cause::NotAbove));
    }
    if received < -1 {
        return Err(LineRefusal::new(LinePlace::Member(Member::Received), Cause::BelowNone));
    }
    if version <= received {
        return Err(LineRefusal::new(LinePlace::Member(Member::Received), Cause::NotBelow));
    }
    Ok(())
}
