//! What a file contains.

ghost use Rattle.std.specs.Prelude.{◌≡◌, ◌<◌, ◌≤◌, Some, length, IfErr, IfNone, IfOk, IfSome};
ghost use Rattle.std.specs.Prelude.{OnOk, vec_len};
ghost use Rattle.std.specs.Io.KnownBytes.{Consumes, IsAtEnd};
ghost use Rattle.wire.specs.FrameLength.{frame_length};
ghost use Rattle.wire.specs.NextFrame.{IsFrameOf};
ghost use Rattle.replay_diagnosis.specs.Content.{ContainsBatches, FoundIn, IsFindingAt};
ghost use Rattle.replay_diagnosis.specs.Content.{IsUnreadable};

use crate::batches::FileBatches;
use crate::classification::classify;
use crate::position::Position;
use crate::run_findings::Finding;
use keyspace::Batch;
use std::alloc::Global;
use wire::{Source, WireError, decode_batch, fill_frame};

/// Reads frames of batches from the beginning of a file to its end, or to what is no such frame.
/// Returns what the batches follow, or what was found instead of the next frame. Takes memory for
/// one frame at a time.
pub fn examine<R: Source>(alloc: Global, reader: &mut R) -> Result<FileBatches, Finding>
    ensures batches { IfOk result (ContainsBatches (R.remaining reader.old)) }
    ensures end { OnOk result (IsAtEnd (R.remaining reader.new)) }
    ensures finding { IfErr result (FoundIn (R.remaining reader.old)) }
    ensures ok { OnOk result (R.failures reader.new ≡ R.failures reader.old) }
    ensures read { IfErr result (λ finding. IsUnreadable finding
        → R.failures reader.old < R.failures reader.new) }
    ensures others { IfErr result (λ finding. ¬ IsUnreadable finding
        → R.failures reader.new ≡ R.failures reader.old) }
{
    let mut frame = Vec::new(alloc);
    let mut batches = FileBatches::none();
    let mut offset = 0u64;
    for number in 1..u64::MAX {
        let position = Position {
            frame: number,
            offset,
        };
        let Some(batch) = next_batch(alloc, position, reader, &mut frame)? else {
            return Ok(batches);
        };
        batches.add(&batch);
        let Some(after) = offset.checked_add(frame.len() as u64) else {
            return Err(Finding::Memory);
        };
        offset = after;
    }
    // The number of one frame more wouldn't fit. No file is so long.
    Err(Finding::Memory)
}

// Reads the next frame into the buffer and returns its batch, or none at the end of the file. The
// frame is at this position.
pub(crate) fn next_batch<R: Source>(
    alloc: Global,
    position: Position,
    reader: &mut R,
    frame: &mut Vec<u8>,
) -> Result<Option<Batch>, Finding>
    ensures taken { IfOk result (λ found. IfSome found (λ batch.
        Consumes (R.remaining reader.old) (R.remaining reader.new) frame.new.items
        × IsFrameOf frame.new.items batch)) }
    ensures end { IfOk result (λ found. IfNone found
        (IsAtEnd (R.remaining reader.old) × IsAtEnd (R.remaining reader.new))) }
    ensures finding { IfErr result (IsFindingAt position (R.remaining reader.old)) }
    ensures ok { OnOk result (R.failures reader.new ≡ R.failures reader.old) }
    ensures read { IfErr result (λ finding. IsUnreadable finding
        → R.failures reader.old < R.failures reader.new) }
    ensures others { IfErr result (λ finding. ¬ IsUnreadable finding
        → R.failures reader.new ≡ R.failures reader.old) }
{
    next_frame(position, reader, frame)?;
    if frame.is_empty() {
        return Ok(None);
    }
    let batch = batch_in(alloc, position, frame)?;
    Ok(Some(batch))
}

// Reads the bytes of the next frame into the buffer, as `fill_frame` does.
fn next_frame<R: Source>(
    position: Position,
    reader: &mut R,
    frame: &mut Vec<u8>,
) -> Result<(), Finding>
    ensures taken { OnOk result (Consumes (R.remaining reader.old) (R.remaining reader.new)
        frame.new.items) }
    ensures within { OnOk result (vec_len frame.new ≤ frame_length frame.new.items) }
    ensures end { OnOk result
        (vec_len frame.new < frame_length frame.new.items → IsAtEnd (R.remaining reader.new)) }
    ensures finding { IfErr result (IsFindingAt position (R.remaining reader.old)) }
    ensures ok { OnOk result (R.failures reader.new ≡ R.failures reader.old) }
    ensures read { IfErr result (λ finding. IsUnreadable finding
        → R.failures reader.old < R.failures reader.new) }
    ensures others { IfErr result (λ finding. ¬ IsUnreadable finding
        → R.failures reader.new ≡ R.failures reader.old) }
{
    match fill_frame(reader, frame) {
        Ok(()) => Ok(()),
        Err(WireError::Read) => Err(Finding::Unreadable(position)),
        Err(_) => Err(Finding::Memory),
    }
}

// Returns the batch of the frame at this position, or what is there instead.
fn batch_in(alloc: Global, position: Position, frame: &[u8]) -> Result<Batch, Finding>
    requires some { 0 < length frame.now }
    requires settled { length frame.now ≤ frame_length frame.now }
    ensures batch { IfOk result (IsFrameOf frame.now) }
    ensures finding { IfErr result (IsFindingAt position (Some frame.now)) }
    ensures readable { IfErr result (λ finding. ¬ IsUnreadable finding) }
{
    match decode_batch(alloc, frame) {
        Ok((batch, _)) => Ok(batch),
        Err(fault) => Err(classify(alloc, position, frame, fault)),
    }
}
