//! The reading of transactions.

ghost use Rattle.std.specs.Prelude.{◌≡◌, ◌+◌, ◌≤◌, [], ◌∷◌, IfOk, OnOk, length, vec_len, take};
ghost use Rattle.keyspace.specs.storage.Tables.{AreRows};
ghost use Rattle.wire.specs.Lying.{IsRestOf, AreApart, index_of, txn_read, txns_read};
ghost use Rattle.wire.specs.Reading.{Gives, txn_at, many_at};
ghost use Rattle.wire.specs.declared.field.TheConstants.{MAX_BODY_LENGTH};

use crate::error::WireError;
use crate::field::{count_of, i64_at, marks_of, room_for};
use crate::range::push_ranges;
use crate::version::WireVersion;
use keyspace::{MAX_RANGES, Row, Span};
use std::alloc::Global;

// The fewest bytes that a transaction takes.
const MIN_TXN_LENGTH: usize = 13;

// Reads a transaction, and appends the spans of its ranges, those of the read ranges first. After
// an error some of them may have been appended.
#[tactic(auto, unfolding(crate::specs::Reading::txn_at, crate::specs::Reading::version_at))]
fn row_of<'a>(
    version: WireVersion,
    frame: &[u8],
    spans: &mut Vec<Span>,
    bytes: &'a [u8],
) -> Result<(Row, &'a [u8]), WireError>
    requires short { length frame.now ≤ 4 + MAX_BODY_LENGTH }
    requires rest { IsRestOf frame.now bytes.now }
    requires apart { AreApart 0 spans.old.items (index_of frame.now bytes.now) }
    ensures reads { Gives (λ x. (
      txn_read frame.now spans.new.items (length spans.old.items) x.0,
      x.1.now,
    )) result
        (txn_at version bytes.now) }
    ensures row { IfOk result (λ x. AreRows (length spans.old.items) (x.0 ∷ [])
        (length spans.new.items)) }
    ensures front { OnOk result (take (length spans.old.items) spans.new.items ≡ spans.old.items) }
    ensures apart { IfOk result (λ x. AreApart 0 spans.new.items (index_of frame.now x.1.now)) }
    ensures rest { IfOk result (λ x. IsRestOf frame.now x.1.now) }
{
    let (snapshot, rest) = i64_at(bytes)?;
    if snapshot < 0 {
        return Err(WireError::Version);
    }
    let (marked, rest) = marks_of(rest)?;
    let (read_count, rest) = count_of(MAX_RANGES as u16, rest)?;
    let (write_count, rest) = count_of(MAX_RANGES as u16, rest)?;
    let rest = push_ranges(version, read_count, frame, spans, rest)?;
    let rest = push_ranges(version, write_count, frame, spans, rest)?;
    let row = Row {
        snapshot,
        end: spans.len() as u32,
        writes: write_count,
        marked,
    };
    Ok((row, rest))
}

/// Reads `count` transactions: the spans of their ranges, and a row for each. No key is copied.
pub fn txns_of<'a>(
    alloc: Global,
    version: WireVersion,
    count: u16,
    frame: &[u8],
    bytes: &'a [u8],
) -> Result<((Vec<Span>, Vec<Row>), &'a [u8]), WireError>
    requires short { length frame.now ≤ 4 + MAX_BODY_LENGTH }
    requires rest { IsRestOf frame.now bytes.now }
    ensures reads { Gives (λ x. (txns_read frame.now x.0.0.items 0 x.0.1.items, x.1.now)) result
        (many_at (txn_at version) count bytes.now) }
    ensures rows { IfOk result (λ x. AreRows 0 x.0.1.items (vec_len x.0.0)) }
    ensures apart { IfOk result (λ x. AreApart 0 x.0.0.items (index_of frame.now x.1.now)) }
{
    let room = room_for(count, MIN_TXN_LENGTH, bytes);
    let mut rows = Vec::with_capacity(alloc, room)?;
    // Room for two ranges of each transaction, one read and one written. If there are more, it
    // grows.
    let mut spans = Vec::with_capacity(alloc, 2 * room)?;
    let mut rest = bytes;
    for _ in 0..count {
        let (row, after) = row_of(version, frame, &mut spans, rest)?;
        rows.push(row)?;
        rest = after;
    }
    Ok(((spans, rows), rest))
}
