//! Clips of ranges whose keys lie in the buffer of the shard already.

ghost use Rattle.std.specs.Prelude.{◌≡◌, ◌≤◌, ◌∷◌, ◌++◌, [], ℕ, List, length, map};
ghost use Rattle.std.specs.Prelude.{All, IfOk, OnOk, if◌then◌else◌};
ghost use Rattle.keys.specs.declared.range.Range.{Range};
ghost use Rattle.keyspace.specs.declared.txn.TheConstants.{MAX_RANGES};
ghost use Rattle.keyspace.specs.storage.Fields.{range_fields};
ghost use Rattle.keyspace.specs.Judge.{places_from};
ghost use Rattle.keyspace.specs.storage.Putting.{ArePut};
ghost use Rattle.keyspace.specs.storage.Tables.{range_of_span, LiesWithin};
ghost use Rattle.shards.specs.Built.{HasBounds, clip_fields, clips_of};
ghost use Rattle.shards.specs.Clips.{goes_to};
ghost use Rattle.shards.specs.Cut.{shard_of_ends};

use crate::shard_bounds::Bounds;
use crate::shard_ends::ShardEnds;
use keyspace::{Span, bytes_at};
use std::alloc::AllocError;

/// Appends the spans of the clips of those read ranges that go to the shard, and the indices of
/// these. Their keys, and the ends of the shard, lie in the buffer.
pub(crate) fn keep_reads(
    kept: &mut Vec<Span>,
    indices: &mut Vec<u16>,
    bounds: &Bounds,
    shard: &ShardEnds<'_>,
    buffer: &[u8],
    spans: &[Span],
) -> Result<(), AllocError>
    requires lie { All (LiesWithin (length buffer.now)) spans.now }
    requires few { length spans.now ≤ MAX_RANGES }
    ensures kept { OnOk result ((m : ℕ) (ranges : List Range)
        → HasBounds (shard_of_ends shard.now) m buffer.now bounds.now
        → map (range_of_span buffer.now) spans.now ≡ map range_fields ranges
        → ArePut buffer.now kept.old.items (clips_of (shard_of_ends shard.now) ranges)
        buffer.now kept.new.items) }
    ensures indices { OnOk result ((m : ℕ) (ranges : List Range)
        → HasBounds (shard_of_ends shard.now) m buffer.now bounds.now
        → map (range_of_span buffer.now) spans.now ≡ map range_fields ranges
        → indices.new.items ≡ indices.old.items
        ++ places_from 0 (goes_to (shard_of_ends shard.now)) ranges) }
{
    for (index, span) in spans.iter().enumerate() {
        let goes = keep_clip(kept, bounds, shard, buffer, span)?;
        if goes {
            indices.push(index as u16)?;
        }
    }
    Ok(())
}

/// Appends the spans of the clips of those write ranges that go to the shard. Their keys, and the
/// ends of the shard, lie in the buffer.
pub(crate) fn keep_writes(
    kept: &mut Vec<Span>,
    bounds: &Bounds,
    shard: &ShardEnds<'_>,
    buffer: &[u8],
    spans: &[Span],
) -> Result<(), AllocError>
    requires lie { All (LiesWithin (length buffer.now)) spans.now }
    ensures kept { OnOk result ((m : ℕ) (ranges : List Range)
        → HasBounds (shard_of_ends shard.now) m buffer.now bounds.now
        → map (range_of_span buffer.now) spans.now ≡ map range_fields ranges
        → ArePut buffer.now kept.old.items (clips_of (shard_of_ends shard.now) ranges)
        buffer.now kept.new.items) }
{
    for span in spans {
        keep_clip(kept, bounds, shard, buffer, span)?;
    }
    Ok(())
}

// Appends the span of the clip of a range, if the range goes to the shard, and returns whether it
// does. Its keys, and the ends of the shard, lie in the buffer.
fn keep_clip(
    kept: &mut Vec<Span>,
    bounds: &Bounds,
    shard: &ShardEnds<'_>,
    buffer: &[u8],
    span: &Span,
) -> Result<bool, AllocError>
    requires lies { LiesWithin (length buffer.now) span.now }
    ensures kept { IfOk result (λ goes. (m : ℕ) (range : Range)
        → HasBounds (shard_of_ends shard.now) m buffer.now bounds.now
        → range_of_span buffer.now span.now ≡ range_fields range
        → (goes ≡ goes_to (shard_of_ends shard.now) range)
        × ArePut buffer.now kept.old.items
        (if goes then clip_fields (shard_of_ends shard.now) range ∷ [] else []) buffer.now
        kept.new.items) }
{
    let begin = bytes_at(buffer, span.begin, span.begin_length);
    let end = bytes_at(buffer, span.end, span.end_length);
    let Some(cut) = shard.cut(begin, end) else {
        return Ok(false);
    };
    kept.push(bounds.clip(span, cut))?;
    Ok(true)
}
