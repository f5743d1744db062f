//! The ranges that C gives by their keys.

ghost use Rattle.std.specs.Prelude.{◌≡◌, ◌+◌, ◌<◌, ◌≤◌, ◌^◌, length, slice_range, All, IfErr};
ghost use Rattle.std.specs.Prelude.{IfSome, IfNone, OnOk};
ghost use Rattle.std.specs.List.{Contains};
ghost use Rattle.archcaraway_c.specs.BatchObject.{IsWithin, IsRangeOf, SpanRefuses, span_after};
ghost use Rattle.archcaraway_c.specs.declared.key_span.KeySpan.{KeySpan as KeySpanValue};

use crate::key_span::KeySpan;
use crate::refusal::Refusal;
use keyspace::{MAX_KEY_LENGTH, Span};
use wire::WireError;

/// Refuses the first of the ranges that isn't one. If a key is too long, the refusal is
/// `KeyLength`; else, if a key isn't among the bytes, `Argument`; else, if the end comes before the
/// begin, `Inverted`.
pub fn check_ranges(keys: &[u8], given: &[KeySpan]) -> Result<(), Refusal>
    ensures ranges { OnOk result (All (IsRangeOf keys.now) given.now) }
    ensures refused { IfErr result (λ refusal. (span : KeySpanValue) × Contains given.now span
        × SpanRefuses keys.now span refusal) }
{
    for span in given {
        check_range(keys, span)?;
    }
    Ok(())
}

fn check_range(keys: &[u8], span: &KeySpan) -> Result<(), Refusal>
    ensures range { OnOk result (IsRangeOf keys.now span.now) }
    ensures refused { IfErr result (λ refusal. SpanRefuses keys.now span.now refusal) }
{
    if span.begin_length > MAX_KEY_LENGTH || span.end_length > MAX_KEY_LENGTH {
        return Err(Refusal::Wire(WireError::KeyLength));
    }
    let Some(begin) = key_at(keys, span.begin, span.begin_length) else {
        return Err(Refusal::Argument);
    };
    let Some(end) = key_at(keys, span.end, span.end_length) else {
        return Err(Refusal::Argument);
    };
    if end.cmp(begin).is_lt() {
        return Err(Refusal::Wire(WireError::Inverted));
    }
    Ok(())
}

// Returns `count` of the bytes, from an index on, if there are that many.
fn key_at(keys: &[u8], from: usize, count: usize) -> Option<&[u8]>
    ensures key { IfSome result (λ key. key.now ≡ slice_range keys.now from (from + count)) }
    ensures within { IfSome result (λ _. from + count ≤ length keys.now) }
    ensures beyond { IfNone result (length keys.now < from + count) }
{
    if from > keys.len() || count > keys.len() - from {
        return None;
    }
    Some(&keys[from..from + count])
}

/// Returns the position of the range in a buffer that has `before` bytes before these.
pub fn place_after(before: usize, bytes: usize, span: &KeySpan) -> Span
    requires fits { before + bytes < 2 ^ 32 }
    requires within { IsWithin bytes span.now }
    ensures span { result ≡ span_after before span.now }
{
    Span {
        begin: (before + span.begin) as u32,
        begin_length: span.begin_length as u16,
        end: (before + span.end) as u32,
        end_length: span.end_length as u16,
    }
}
