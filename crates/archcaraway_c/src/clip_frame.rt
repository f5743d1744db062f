//! The clip of a batch to a shard, from a frame to a frame.

ghost use Rattle.std.specs.Prelude.{◌≤◌, length, take, IfOk, IfErr};
ghost use Rattle.archcaraway_c.specs.ShardFrames.{IsClippedFrame, ClipRefuses};

use crate::batch_frame::decode_frame;
use crate::refusal::Refusal;
use crate::reply_frame::write_frame;
use shards::{SplitPoints, clip};
use std::alloc::{AllocError, Global};
use wire::{WireError, encode_batch};

/// Clips the batch of a frame to a shard, writes the frame of the clip to the front of the buffer,
/// and returns the length of that.
pub fn clip_frame(
    alloc: Global,
    points: &SplitPoints,
    shard: usize,
    frame: &[u8],
    buffer: &mut [u8],
) -> Result<usize, Refusal>
    ensures clipped { IfOk result
        (λ count. IsClippedFrame points.now shard frame.now (take count buffer.new)) }
    ensures within { IfOk result (λ count. count ≤ length buffer.new) }
    ensures refused { IfErr result
        (λ refusal. ClipRefuses points.now shard frame.now (length buffer.old) refusal) }
{
    if shard >= points.shard_count() {
        return Err(Refusal::Argument);
    }
    let batch = match decode_frame(alloc, frame) {
        Ok(batch) => batch,
        Err(refusal) => return Err(refusal),
    };
    let clipped = match clip(alloc, &batch, points, shard) {
        Ok(clipped) => clipped,
        Err(AllocError) => return Err(Refusal::Wire(WireError::Memory)),
    };
    let bytes = match encode_batch(alloc, &clipped.batch) {
        Ok(bytes) => bytes,
        Err(fault) => return Err(Refusal::Wire(fault)),
    };
    match write_frame(&bytes, buffer) {
        Ok(count) => Ok(count),
        Err(refusal) => Err(refusal),
    }
}
