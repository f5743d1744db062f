//! Clips of ranges whose keys are copied to the buffer of the shard.

ghost use Rattle.std.specs.Prelude.{◌≡◌, ◌≤◌, ◌∷◌, ◌++◌, [], ℕ, List, length, is_some};
ghost use Rattle.std.specs.Prelude.{IfOk, IfSome, OnOk, if◌then◌else◌};
ghost use Rattle.std.specs.List.{AllZip};
ghost use Rattle.keys.specs.declared.key.TheConstants.{MAX_KEY_LENGTH};
ghost use Rattle.keyspace.specs.storage.Putting.{ArePut};
ghost use Rattle.serial.specs.Shards.{Shard};
ghost use Rattle.shards.specs.Built.{LiesAt, HasBounds, clips_of};
ghost use Rattle.shards.specs.Reach.{IsReported};

use crate::reach::Reach;
use crate::shard_bounds::{Bounds, KeyAt};
use keys::RangeRef;
use keyspace::{RangesRef, Span};
use std::alloc::AllocError;

/// Appends the clips of those ranges that go to the shard: their keys to the buffer, and their
/// spans to the others.
pub(crate) fn put_clips(
    buffer: &mut Vec<u8>,
    spans: &mut Vec<Span>,
    bounds: &Bounds,
    ranges: &RangesRef<'_>,
    reaches: &[Reach],
) -> Result<(), AllocError>
    requires count { length reaches.now ≡ length ranges.now }
    ensures put { OnOk result ((shard : Shard) (m : ℕ)
        → HasBounds shard m buffer.old.items bounds.now
        → AllZip (IsReported shard m) ranges.now reaches.now
        → ArePut buffer.old.items spans.old.items (clips_of shard ranges.now) buffer.new.items
        spans.new.items) }
{
    for (index, reach) in reaches.iter().enumerate() {
        if reach.includes(bounds.shard) {
            let range = ranges.get(index);
            put_clip(
                buffer,
                spans,
                &range,
                bounds.begin_of(reach),
                bounds.end_of(reach),
            )?;
        }
    }
    Ok(())
}

// Appends a range: its keys to the buffer, and its span to the others. If it begins or ends with a
// key that already lies in the buffer, that one is used.
fn put_clip(
    buffer: &mut Vec<u8>,
    spans: &mut Vec<Span>,
    range: &RangeRef<'_>,
    begin: Option<KeyAt>,
    end: Option<KeyAt>,
) -> Result<(), AllocError>
    ensures put { OnOk result ((from to : List ℕ) → IfSome begin
        (λ at. LiesAt buffer.old.items at from)
        → IfSome end (λ at. LiesAt buffer.old.items at to)
        → ArePut buffer.old.items spans.old.items (record {
          begin = if is_some begin then from else range.now.begin;
          end = if is_some end then to else range.now.end;
        } ∷ []) buffer.new.items spans.new.items) }
{
    let begin = key_or_put(buffer, begin, range.begin())?;
    let end = key_or_put(buffer, end, range.end())?;
    spans.push(Span {
        begin: begin.begin,
        begin_length: begin.length,
        end: end.begin,
        end_length: end.length,
    })?;
    Ok(())
}

// Returns where a key lies that is in the buffer, or appends the other one.
fn key_or_put(buffer: &mut Vec<u8>, at: Option<KeyAt>, key: &[u8]) -> Result<KeyAt, AllocError>
    requires short { length key.now ≤ MAX_KEY_LENGTH }
    ensures kept { OnOk result ((more : List ℕ) × (buffer.new.items ≡ buffer.old.items ++ more)) }
    ensures at { IfOk result (λ found. (bound : List ℕ) → IfSome at
        (λ at. LiesAt buffer.old.items at bound)
        → LiesAt buffer.new.items found (if is_some at then bound else key.now)) }
{
    match at {
        Some(at) => Ok(at),
        None => put_key(buffer, key),
    }
}

/// Appends the key to the buffer, and returns where it lies, or an error if memory is refused or
/// the buffer has more than 4 GiB.
pub(crate) fn put_key(buffer: &mut Vec<u8>, key: &[u8]) -> Result<KeyAt, AllocError>
    requires short { length key.now ≤ MAX_KEY_LENGTH }
    ensures key { OnOk result (buffer.new.items ≡ buffer.old.items ++ key.now) }
    ensures at { IfOk result (λ at. LiesAt buffer.new.items at key.now) }
{
    let begin = buffer.len();
    if begin > u32::MAX as usize {
        return Err(AllocError);
    }
    buffer.extend_from_slice(key)?;
    Ok(KeyAt {
        begin: begin as u32,
        length: key.len() as u16,
    })
}
