//! From frames to the frames of their clips to a shard.

ghost use Rattle.std.specs.Prelude.{◌≡◌, ◌≢◌, ◌<◌, ◌≤◌, ℕ, List, IfOk, IfErr, OnOk, length};
ghost use Rattle.std.specs.Io.KnownBytes.{Appends, Consumes, IsAtEnd};
ghost use Rattle.serial.specs.Shards.{shards};
ghost use Rattle.wire.specs.FrameLength.{frame_length};
ghost use Rattle.batches_tasks.specs.Clipping.{BecomesClip, FailsClip, IsFailureOfClip};
ghost use Rattle.batches_tasks.specs.Turned.{Stops, TurnsAll};
ghost use Rattle.batches_tasks.specs.declared.failure.Failure.TheVariants.{Read, Write};

use crate::failure::Failure;
use crate::frame::{batch_in, next_frame};
use shards::{SplitPoints, clip};
use std::alloc::Global;
use wire::{Sink, Source, encode_batch, write_all};

/// Reads frames of batches to the end of the input and writes the frame of each batch clipped to
/// the shard. After a failure, other than of the writer, the frames before it are written
/// completely.
pub fn clip_frames<R: Source, W: Sink>(
    alloc: Global,
    points: &SplitPoints,
    shard: usize,
    reader: &mut R,
    writer: &mut W,
) -> Result<(), Failure>
    requires within { shard < length (shards points.now) }
    ensures turned { OnOk result (TurnsAll (BecomesClip points.now shard) (R.remaining reader.old)
        (W.given writer.old) (W.given writer.new)) }
    ensures refused { IfErr result (λ e. e ≢ Write
        → Stops (BecomesClip points.now shard) (FailsClip points.now shard)
        (R.remaining reader.old) (W.given writer.old) (W.given writer.new) e) }
    ensures read { IfErr result (λ e. e ≡ Read → R.failures reader.old < R.failures reader.new) }
    ensures write { IfErr result (λ e. e ≡ Write → W.failures writer.old < W.failures writer.new) }
    ensures ok { OnOk result (W.failures writer.new ≡ W.failures writer.old) }
{
    let mut frame = Vec::new(alloc);
    for number in 1..u64::MAX {
        let length = clip_next(alloc, points, shard, number, reader, writer, &mut frame)?;
        if length == 0 {
            return Ok(());
        }
    }
    // The number of one frame more wouldn't fit. No input is so long.
    Err(Failure::Memory)
}

// Reads the next frame and writes that of its clip. Returns its length in bytes, 0 at the end of
// the input.
fn clip_next<R: Source, W: Sink>(
    alloc: Global,
    points: &SplitPoints,
    shard: usize,
    number: u64,
    reader: &mut R,
    writer: &mut W,
    frame: &mut Vec<u8>,
) -> Result<usize, Failure>
    requires within { shard < length (shards points.now) }
    ensures clipped { IfOk result (λ length. 0 < length → (frame text : List ℕ)
        × Consumes (R.remaining reader.old) (R.remaining reader.new) frame
        × BecomesClip points.now shard frame text
        × Appends (W.given writer.old) (W.given writer.new) text) }
    ensures end { IfOk result (λ length. length ≡ 0
        → IsAtEnd (R.remaining reader.old) × (W.given writer.new ≡ W.given writer.old)) }
    ensures refused { IfErr result (λ e. e ≢ Write → W.given writer.new ≡ W.given writer.old) }
    ensures fails { IfErr result (FailsClip points.now shard number (R.remaining reader.old)) }
    ensures read_ok { OnOk result (R.failures reader.new ≡ R.failures reader.old) }
    ensures read { IfErr result (λ e. e ≡ Read → R.failures reader.old < R.failures reader.new) }
    ensures write { IfErr result (λ e. e ≡ Write → W.failures writer.old < W.failures writer.new) }
    ensures ok { OnOk result (W.failures writer.new ≡ W.failures writer.old) }
{
    next_frame(reader, frame)?;
    if frame.is_empty() {
        return Ok(0);
    }
    let clip = clip_of(alloc, points, shard, number, frame)?;
    write_all(writer, &clip)?;
    Ok(frame.len())
}

// Returns the frame of the clip of the batch that a frame, which has this number, is of.
fn clip_of(
    alloc: Global,
    points: &SplitPoints,
    shard: usize,
    number: u64,
    frame: &[u8],
) -> Result<Vec<u8>, Failure>
    requires within { shard < length (shards points.now) }
    requires settled { length frame.now ≤ frame_length frame.now }
    ensures clip { IfOk result (λ clip. BecomesClip points.now shard frame.now clip.items) }
    ensures fails { IfErr result (IsFailureOfClip points.now shard number frame.now) }
{
    let batch = batch_in(alloc, number, frame)?;
    let clipped = clip(alloc, &batch, points, shard)?;
    match encode_batch(alloc, &clipped.batch) {
        Ok(clip) => Ok(clip),
        Err(refusal) => Err(Failure::of_clip(number, refusal)),
    }
}
