//! Replies.

ghost use Rattle.std.specs.Prelude.{◌≡◌, ◌≢◌, ◌≤◌, ◌<◌, map, length, IfOk, IfErr, IfSome, OnOk};
ghost use Rattle.std.specs.Prelude.{Some, None};
ghost use Rattle.std.specs.Str.{IsUtf8};
ghost use Rattle.json.specs.Json.{document};
ghost use Rattle.json.specs.Scratch.{room};
ghost use Rattle.json.specs.Value.{value_view, items_view};
ghost use Rattle.keyspace.specs.Places.{ArePlaces};
ghost use Rattle.keyspace.specs.declared.batch.TheConstants.{MAX_TXNS};
ghost use Rattle.wire.specs.Fields.{entry_fields, reply_fields};
ghost use Rattle.json_lines.specs.Replies.{verdict_names, place_from, rising, places_in, report_in};
ghost use Rattle.json_lines.specs.Replies.{entry_in, entries_in, reply_members, reply_in, reply_of};
ghost use Rattle.json_lines.specs.Replies.{place_in, plain_in};
ghost use Rattle.json_lines.specs.Memory.{TakesMemory};
ghost use Rattle.json_lines.specs.Values.{Reads, each};
ghost use Rattle.json_lines.specs.declared.cause.Cause.TheVariants as cause;

use crate::cause::Cause;
use crate::document::value_of;
use crate::items::{few_items_of, items_of};
use crate::member::Member;
use crate::members::{check_members, required};
use crate::place::LinePlace;
use crate::refusal::LineRefusal;
use crate::scalar::number_of;
use crate::txn::number_at;
use json::{Scratch, Value};
use keyspace::{Entry, MAX_RANGES, MAX_TXNS, Places, Reply, Sequence, Verdict};
use std::alloc::Global;

const MEMBERS: [Member; 2] = [Member::Version, Member::Verdicts];

const REPORT_MEMBERS: [Member; 1] = [Member::Conflict];

/// Reads the reply of a line, which is one JSON object. The scratch is kept from line to line, so
/// that its memory is taken once.
pub fn read_reply(alloc: Global, line: &[u8], scratch: &mut Scratch) -> Result<Reply, LineRefusal>
    ensures reply { IfOk result (λ reply. reply_of line.now ≡ Some (reply_fields reply)) }
    ensures text { OnOk result (IsUtf8 line.now) }
    ensures refused { IfErr result (λ refusal. refusal.cause ≢ cause.Memory → IsUtf8 line.now
        → reply_of line.now ≡ None) }

    // A line that isn't JSON, and takes no memory, isn't reported as a failed allocation.
    ensures memory { IfErr result (λ refusal. refusal.cause ≡ cause.Memory
        → document line.now ≡ None
        → TakesMemory line.now (room scratch.old)) }
{
    let value = value_of(alloc, line, scratch)?;
    reply_in_value(alloc, &value)
}

#[tactic(auto, unfolding(crate::specs::Replies::reply_in))]
fn reply_in_value(alloc: Global, value: &Value<'_>) -> Result<Reply, LineRefusal>
    ensures reads { Reads reply_fields result (reply_in (value_view value.now)) }
{
    check_members(alloc, value, &MEMBERS, LinePlace::Line)?;
    members_of(alloc, value)
}

// Reads a reply whose members are known to be the right ones.
#[tactic(auto, unfolding(crate::specs::Replies::reply_members))]
fn members_of(alloc: Global, value: &Value<'_>) -> Result<Reply, LineRefusal>
    ensures reads { Reads reply_fields result (reply_members (value_view value.now)) }
{
    let version = number_at(value, Member::Version, LinePlace::Line)?;
    let at = LinePlace::Member(Member::Verdicts);
    let entries = entries_of(alloc, required(value, Member::Verdicts, at)?, at)?;
    if version < 0 {
        return Err(LineRefusal::new(LinePlace::Member(Member::Version), Cause::Negative));
    }
    Ok(Reply::new(version, Sequence::new(entries)))
}

#[tactic(auto, unfolding(crate::specs::Values::list_in))]
fn entries_of(alloc: Global, value: &Value<'_>, place: LinePlace) -> Result<Vec<Entry>, LineRefusal>
    ensures reads { Reads (λ entries. map entry_fields entries.items) result
        (entries_in (value_view value.now)) }
    ensures few { IfOk result (λ entries. length entries.items ≤ MAX_TXNS) }
{
    let items = few_items_of(value, MAX_TXNS, Cause::ManyTxns, place)?;
    each_entry(alloc, items, place)
}

fn each_entry(
    alloc: Global,
    items: &[Value<'_>],
    place: LinePlace,
) -> Result<Vec<Entry>, LineRefusal>
    ensures reads { Reads (λ entries. map entry_fields entries.items) result
        (each entry_in (items_view items.now)) }
    ensures count { IfOk result (λ entries. length entries.items ≡ length items.now) }
{
    let mut entries = Vec::with_capacity(alloc, items.len())?;
    for index in 0..items.len() {
        entries.push(entry_of(alloc, &items[index], place.item(index))?)?;
    }
    Ok(entries)
}

fn entry_of(alloc: Global, value: &Value<'_>, place: LinePlace) -> Result<Entry, LineRefusal>
    ensures reads { Reads entry_fields result (entry_in (value_view value.now)) }
{
    match value {
        Value::String(text) => plain_of(alloc, text, place),
        Value::Object(_) => report_of(alloc, value, place),
        _ => Err(LineRefusal::new(place, Cause::NotVerdict)),
    }
}

// Reads a verdict without a report.
fn plain_of(alloc: Global, text: &str, place: LinePlace) -> Result<Entry, LineRefusal>
    ensures reads { Reads entry_fields result (plain_in text.now) }
{
    let Some(verdict) = verdict_of(text) else {
        return Err(LineRefusal::new(place, Cause::NotVerdict));
    };
    Ok(Entry::new(verdict, Places::new(Vec::new(alloc))))
}

fn verdict_of(text: &str) -> Option<Verdict>
    ensures exact { result ≡ verdict_names text.now }
{
    if text == "conflict" {
        Some(Verdict::Conflict)
    } else if text == "tooold" {
        Some(Verdict::TooOld)
    } else if text == "committed" {
        Some(Verdict::Committed)
    } else {
        None
    }
}

// Reads a conflict with its report.
#[tactic(auto, unfolding(crate::specs::Replies::report_in))]
fn report_of(alloc: Global, value: &Value<'_>, place: LinePlace) -> Result<Entry, LineRefusal>
    ensures reads { Reads entry_fields result (report_in (value_view value.now)) }
{
    check_members(alloc, value, &REPORT_MEMBERS, place)?;
    let at = place.member(Member::Conflict);
    let places = places_of(alloc, required(value, Member::Conflict, at)?, at)?;
    Ok(Entry::new(Verdict::Conflict, Places::new(places)))
}

fn places_of(alloc: Global, value: &Value<'_>, place: LinePlace) -> Result<Vec<u16>, LineRefusal>
    ensures reads { Reads (λ places. places.items) result (places_in (value_view value.now)) }
    ensures places { IfOk result (λ places. ArePlaces places.items) }
{
    let items = items_of(value, place)?;
    each_place(alloc, items, place)
}

fn each_place(alloc: Global, items: &[Value<'_>], place: LinePlace) -> Result<Vec<u16>, LineRefusal>
    ensures reads { Reads (λ places. places.items) result (rising 0 (items_view items.now)) }
    ensures places { IfOk result (λ places. ArePlaces places.items) }
{
    let mut places = Vec::new(alloc);
    let mut least = 0;
    for index in 0..items.len() {
        let next = place_of(&items[index], least, place.item(index))?;
        places.push(next)?;
        least = next + 1;
    }
    Ok(places)
}

// Reads a place that is at least `least`.
fn place_of(value: &Value<'_>, least: u16, place: LinePlace) -> Result<u16, LineRefusal>
    ensures reads { Reads (λ n. n) result (place_in least (value_view value.now)) }
    ensures below { IfOk result (λ n. n < 1024) }
{
    let number = number_of(value, place)?;
    if number < i64::from(least) || number >= MAX_RANGES as i64 {
        return Err(LineRefusal::new(place, Cause::NotPlace));
    }
    Ok(number as u16)
}
