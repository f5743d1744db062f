//! The reading of ranges, in either wire version.

ghost use Rattle.std.specs.Prelude.{◌≡◌, ◌+◌, ◌<◌, ◌≤◌, OnOk, IfOk, length, map, take, drop};
ghost use Rattle.wire.specs.Lying.{IsRestOf, IsBetween, AreApart, index_of, range_read};
ghost use Rattle.wire.specs.Reading.{Gives, ends_at, form_at, formed_at, range_at, many_at};
ghost use Rattle.wire.specs.declared.field.TheConstants.{MAX_BODY_LENGTH};

use crate::error::WireError;
use crate::field::{key_of, room_for, u8_at};
use crate::version::WireVersion;
use keys::{MAX_KEY_LENGTH, MAX_SINGLE_KEY_LENGTH, is_single_key};
use keyspace::{Span, bytes_at};

// The fewest bytes that a range takes in either version: in version 2, a form and the length of a
// key.
const MIN_RANGE_LENGTH: usize = 3;

// Reads both ends of a range.
#[tactic(auto, unfolding(crate::specs::Reading::ends_at))]
fn ends_of<'a>(frame: &[u8], bytes: &'a [u8]) -> Result<(Span, &'a [u8]), WireError>
    requires short { length frame.now ≤ 4 + MAX_BODY_LENGTH }
    requires rest { IsRestOf frame.now bytes.now }
    ensures reads { Gives (λ x. (range_read frame.now x.0, x.1.now)) result (ends_at bytes.now) }
    ensures place { IfOk result (λ x. IsBetween (index_of frame.now bytes.now) x.0
        (index_of frame.now x.1.now)) }
    ensures both { IfOk result (λ x. x.0.begin + x.0.begin_length < x.0.end) }
    ensures rest { IfOk result (λ x. IsRestOf frame.now x.1.now) }
{
    let (begin, first, rest) = key_of(frame, MAX_KEY_LENGTH, bytes)?;
    let (end, last, rest) = key_of(frame, MAX_KEY_LENGTH, rest)?;
    if last.cmp(first).is_lt() {
        return Err(WireError::Inverted);
    }
    let span = Span {
        begin,
        begin_length: first.len() as u16,
        end,
        end_length: last.len() as u16,
    };
    Ok((span, rest))
}

// Reads what follows form 0: both ends of a range that isn't a single key.
#[tactic(auto, unfolding(crate::specs::Reading::form_at))]
fn form_0_of<'a>(frame: &[u8], bytes: &'a [u8]) -> Result<(Span, &'a [u8]), WireError>
    requires short { length frame.now ≤ 4 + MAX_BODY_LENGTH }
    requires rest { IsRestOf frame.now bytes.now }
    ensures reads { Gives (λ x. (range_read frame.now x.0, x.1.now)) result (form_at 0 bytes.now) }
    ensures place { IfOk result (λ x. IsBetween (index_of frame.now bytes.now) x.0
        (index_of frame.now x.1.now)) }
    ensures rest { IfOk result (λ x. IsRestOf frame.now x.1.now) }
{
    let (span, rest) = ends_of(frame, bytes)?;
    let begin = bytes_at(frame, span.begin, span.begin_length);
    let end = bytes_at(frame, span.end, span.end_length);
    if is_single_key(begin, end) {
        return Err(WireError::Spelling);
    }
    Ok((span, rest))
}

// Reads what follows form 1: a single key.
#[tactic(auto, unfolding(crate::specs::Reading::form_at))]
fn form_1_of<'a>(frame: &[u8], bytes: &'a [u8]) -> Result<(Span, &'a [u8]), WireError>
    requires short { length frame.now ≤ 4 + MAX_BODY_LENGTH }
    requires rest { IsRestOf frame.now bytes.now }
    ensures reads { Gives (λ x. (range_read frame.now x.0, x.1.now)) result (form_at 1 bytes.now) }
    ensures place { IfOk result (λ x. IsBetween (index_of frame.now bytes.now) x.0
        (index_of frame.now x.1.now)) }
    ensures rest { IfOk result (λ x. IsRestOf frame.now x.1.now) }
{
    let (begin, key, rest) = key_of(frame, MAX_SINGLE_KEY_LENGTH, bytes)?;
    let length = key.len() as u16;
    let span = Span {
        begin,
        begin_length: length,
        end: begin,
        end_length: length + 1,
    };
    Ok((span, rest))
}

// Reads a form and what follows it.
#[tactic(auto, unfolding(crate::specs::Reading::formed_at, crate::specs::Reading::form_at))]
fn formed_of<'a>(frame: &[u8], bytes: &'a [u8]) -> Result<(Span, &'a [u8]), WireError>
    requires short { length frame.now ≤ 4 + MAX_BODY_LENGTH }
    requires rest { IsRestOf frame.now bytes.now }
    ensures reads { Gives (λ x. (range_read frame.now x.0, x.1.now)) result (formed_at bytes.now) }
    ensures place { IfOk result (λ x. IsBetween (index_of frame.now bytes.now) x.0
        (index_of frame.now x.1.now)) }
    ensures rest { IfOk result (λ x. IsRestOf frame.now x.1.now) }
{
    let (form, rest) = u8_at(bytes)?;
    match form {
        0 => form_0_of(frame, rest),
        1 => form_1_of(frame, rest),
        _ => Err(WireError::Form),
    }
}

fn range_of<'a>(
    version: WireVersion,
    frame: &[u8],
    bytes: &'a [u8],
) -> Result<(Span, &'a [u8]), WireError>
    requires short { length frame.now ≤ 4 + MAX_BODY_LENGTH }
    requires rest { IsRestOf frame.now bytes.now }
    ensures reads { Gives (λ x. (range_read frame.now x.0, x.1.now)) result
        (range_at version bytes.now) }
    ensures place { IfOk result (λ x. IsBetween (index_of frame.now bytes.now) x.0
        (index_of frame.now x.1.now)) }
    ensures rest { IfOk result (λ x. IsRestOf frame.now x.1.now) }
{
    match version {
        WireVersion::One => ends_of(frame, bytes),
        WireVersion::Two => formed_of(frame, bytes),
    }
}

/// Reads `count` ranges, and appends their spans. After an error some of them may have been
/// appended.
pub fn push_ranges<'a>(
    version: WireVersion,
    count: u16,
    frame: &[u8],
    spans: &mut Vec<Span>,
    bytes: &'a [u8],
) -> Result<&'a [u8], WireError>
    requires short { length frame.now ≤ 4 + MAX_BODY_LENGTH }
    requires rest { IsRestOf frame.now bytes.now }
    requires apart { AreApart 0 spans.old.items (index_of frame.now bytes.now) }
    ensures reads { Gives (λ rest.
        (map (range_read frame.now) (drop (length spans.old.items) spans.new.items), rest.now))
        result (many_at (range_at version) count bytes.now) }
    ensures front { OnOk result (take (length spans.old.items) spans.new.items ≡ spans.old.items) }
    ensures count { OnOk result (length spans.new.items ≡ length spans.old.items + count) }
    ensures apart { IfOk result (λ rest. AreApart 0 spans.new.items (index_of frame.now rest.now)) }
    ensures rest { IfOk result (λ rest. IsRestOf frame.now rest.now) }
{
    spans.reserve(room_for(count, MIN_RANGE_LENGTH, bytes))?;
    let mut rest = bytes;
    for _ in 0..count {
        let (span, after) = range_of(version, frame, rest)?;
        spans.push(span)?;
        rest = after;
    }
    Ok(rest)
}
