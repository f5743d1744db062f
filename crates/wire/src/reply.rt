//! The reading of a frame of a reply.

ghost use Rattle.std.specs.Prelude.{◌≡◌, ◌≢◌, ◌+◌, ◌<◌, ◌≤◌, [], length, map, take, vec_len, IfOk};
ghost use Rattle.std.specs.Prelude.{IfErr, OnOk, Some, None};
ghost use Rattle.byteorder.specs.Endian.{big_number};
ghost use Rattle.keyspace.specs.Places.{ArePlaces};
ghost use Rattle.keyspace.specs.declared.reply.Verdict.TheVariants.{Conflict};
ghost use Rattle.wire.specs.Fields.{entry_fields, reply_fields};
ghost use Rattle.wire.specs.Spelling.{SpellsReply};
ghost use Rattle.wire.specs.Reading.{Gives, verdict_at, most_places, place_at, places_at, entry_at};
ghost use Rattle.wire.specs.Reading.{many_at, reply_at, read_reply, reply_fault};

use crate::error::WireError;
use crate::field::{after_kind, body_of, count_of, i64_at, room_for, u8_at, u16_at};
use keyspace::{Entry, MAX_RANGES, MAX_TXNS, Places, Reply, Sequence, Verdict};
use std::alloc::Global;

const KIND: u8 = 2;

// The fewest bytes that an entry takes.
const MIN_ENTRY_LENGTH: usize = 3;

// The bytes that a place takes.
const PLACE_LENGTH: usize = 2;

#[tactic(auto, unfolding(crate::specs::Reading::verdict_at))]
fn verdict_of(bytes: &[u8]) -> Result<(Verdict, &[u8]), WireError>
    ensures reads { Gives (λ x. (x.0, x.1.now)) result (verdict_at bytes.now) }
{
    let (code, rest) = u8_at(bytes)?;
    match code {
        0 => Ok((Verdict::Conflict, rest)),
        1 => Ok((Verdict::TooOld, rest)),
        2 => Ok((Verdict::Committed, rest)),
        _ => Err(WireError::Kind),
    }
}

// Returns the most places that the report beside this verdict may have.
fn max_places(verdict: Verdict) -> u16
    ensures most { result ≡ most_places verdict }
{
    match verdict {
        Verdict::Conflict => MAX_RANGES as u16,
        Verdict::TooOld | Verdict::Committed => 0,
    }
}

// Reads a place that is at least `least`.
#[tactic(auto, unfolding(crate::specs::Reading::place_at))]
fn place_of(least: u16, bytes: &[u8]) -> Result<(u16, &[u8]), WireError>
    ensures reads { Gives (λ x. (x.0, x.1.now)) result (place_at least bytes.now) }
    ensures below { IfOk result (λ x. x.0 < 1024) }
{
    let (place, rest) = u16_at(bytes)?;
    if place < least || place as usize >= MAX_RANGES {
        return Err(WireError::Marks);
    }
    Ok((place, rest))
}

// Reads `count` places, each above the one before it.
fn places_of(alloc: Global, count: u16, bytes: &[u8]) -> Result<(Vec<u16>, &[u8]), WireError>
    ensures reads { Gives (λ x. (x.0.items, x.1.now)) result (places_at 0 count bytes.now) }
    ensures places { IfOk result (λ x. ArePlaces x.0.items) }
    ensures count { IfOk result (λ x. vec_len x.0 ≡ count) }
{
    let room = room_for(count, PLACE_LENGTH, bytes);
    let mut places = Vec::with_capacity(alloc, room)?;
    let mut rest = bytes;
    let mut least = 0;
    for _ in 0..count {
        let (place, after) = place_of(least, rest)?;
        places.push(place)?;
        least = place + 1;
        rest = after;
    }
    Ok((places, rest))
}

#[tactic(auto, unfolding(crate::specs::Reading::entry_at))]
fn entry_of(alloc: Global, bytes: &[u8]) -> Result<(Entry, &[u8]), WireError>
    ensures reads { Gives (λ x. (entry_fields x.0, x.1.now)) result (entry_at bytes.now) }
{
    let (verdict, rest) = verdict_of(bytes)?;
    let (count, rest) = count_of(max_places(verdict), rest)?;
    let (places, rest) = places_of(alloc, count, rest)?;
    Ok((Entry::new(verdict, Places::new(places)), rest))
}

// Reads `count` entries.
fn entries_of(alloc: Global, count: u16, bytes: &[u8]) -> Result<(Vec<Entry>, &[u8]), WireError>
    ensures reads { Gives (λ x. (map entry_fields x.0.items, x.1.now)) result
        (many_at entry_at count bytes.now) }
    ensures count { IfOk result (λ x. vec_len x.0 ≡ count) }
{
    let room = room_for(count, MIN_ENTRY_LENGTH, bytes);
    let mut entries = Vec::with_capacity(alloc, room)?;
    let mut rest = bytes;
    for _ in 0..count {
        let (entry, after) = entry_of(alloc, rest)?;
        entries.push(entry)?;
        rest = after;
    }
    Ok((entries, rest))
}

#[tactic(auto, unfolding(crate::specs::Reading::reply_at, crate::specs::Reading::version_at))]
fn reply_of(alloc: Global, bytes: &[u8]) -> Result<(Reply, &[u8]), WireError>
    ensures reads { Gives (λ x. (reply_fields x.0, x.1.now)) result (reply_at bytes.now) }
{
    let rest = after_kind(KIND, bytes)?;
    let (version, rest) = i64_at(rest)?;
    if version < 0 {
        return Err(WireError::Version);
    }
    let (count, rest) = count_of(MAX_TXNS as u16, rest)?;
    let (entries, rest) = entries_of(alloc, count, rest)?;
    Ok((Reply::new(version, Sequence::new(entries)), rest))
}

/// Reads the frame at the front, and returns its reply and its length in bytes.
#[tactic(auto, unfolding(crate::specs::Reading::read_reply))]
pub fn read_frame(alloc: Global, bytes: &[u8]) -> Result<(Reply, usize), WireError>
    ensures reads { Gives (λ x. reply_fields x.0) result (read_reply bytes.now) }
    ensures used { IfOk result (λ x. x.1 ≡ 4 + big_number 4 bytes.now) }
{
    let body = body_of(bytes)?;
    let (reply, rest) = reply_of(alloc, body)?;
    if !rest.is_empty() {
        return Err(WireError::Trailing);
    }
    Ok((reply, 4 + body.len()))
}

/// Decodes the frame at the front and returns its reply and its length in bytes. What follows the
/// frame isn't looked at. A refusal other than `Memory` is the frame's first fault.
pub fn decode_reply(alloc: Global, bytes: &[u8]) -> Result<(Reply, usize), WireError>
    ensures within { IfOk result (λ found. found.1 ≤ length bytes.now) }
    ensures spelled { IfOk result (λ found. SpellsReply (take found.1 bytes.now) found.0) }
    ensures ok { OnOk result (reply_fault bytes.now ≡ None) }
    ensures fault { IfErr result (λ e. e ≢ WireError.Memory → reply_fault bytes.now ≡ Some e) }
    ensures never_read { IfErr result (λ e. e ≢ WireError.Read) }
    ensures never_write { IfErr result (λ e. e ≢ WireError.Write) }
{
    read_frame(alloc, bytes)
}
