//! The next frame, and what it says.

ghost use Rattle.std.specs.Prelude.{◌≡◌, ◌⊎◌, ◌<◌, ◌≤◌, length, vec_len, IfErr, IfNone, IfOk};
ghost use Rattle.std.specs.Prelude.{IfSome, OnOk};
ghost use Rattle.std.specs.Io.KnownBytes.{Consumes, IsAtEnd};
ghost use Rattle.wire.specs.FrameLength.{frame_length};
ghost use Rattle.wire.specs.NextFrame.{IsFrameOf};
ghost use Rattle.wire.specs.Spelling.{SpellsReply};
ghost use Rattle.batches_tasks.specs.Failing.{FailsFrame, IsFailureOfFrame};
ghost use Rattle.batches_tasks.specs.declared.failure.Failure.TheVariants.{Memory, Read};
ghost use Rattle.batches_arguments.specs.declared.kind.Kind.TheVariants.{Batches, Replies};

use crate::failure::Failure;
use keyspace::{Batch, Reply};
use std::alloc::Global;
use wire::{Source, WireError, decode_batch, decode_reply, fill_frame};

/// Reads the bytes of the next frame into the buffer, as [`fill_frame`] does.
pub fn next_frame<R: Source>(reader: &mut R, frame: &mut Vec<u8>) -> Result<(), Failure>
    ensures taken { OnOk result (Consumes (R.remaining reader.old) (R.remaining reader.new)
        frame.new.items) }
    ensures within { OnOk result (vec_len frame.new ≤ frame_length frame.new.items) }
    ensures end { OnOk result
        (vec_len frame.new < frame_length frame.new.items → IsAtEnd (R.remaining reader.new)) }
    ensures err { IfErr result (λ e. (e ≡ Memory) ⊎ (e ≡ Read)) }
    ensures ok { OnOk result (R.failures reader.new ≡ R.failures reader.old) }
    ensures read { IfErr result (λ e. e ≡ Read → R.failures reader.old < R.failures reader.new) }
{
    match fill_frame(reader, frame) {
        Ok(()) => Ok(()),
        Err(WireError::Read) => Err(Failure::Read),
        Err(_) => Err(Failure::Memory),
    }
}

/// Reads the next frame into the buffer and returns its batch, or none at the end of the input. The
/// frame has this number.
pub fn next_batch<R: Source>(
    alloc: Global,
    number: u64,
    reader: &mut R,
    frame: &mut Vec<u8>,
) -> Result<Option<Batch>, Failure>
    ensures taken { IfOk result (λ found. IfSome found (λ batch.
        Consumes (R.remaining reader.old) (R.remaining reader.new) frame.new.items
        × IsFrameOf frame.new.items batch)) }
    ensures end { IfOk result (λ found. IfNone found (IsAtEnd (R.remaining reader.old))) }
    ensures fails { IfErr result (FailsFrame Batches number (R.remaining reader.old)) }
    ensures ok { OnOk result (R.failures reader.new ≡ R.failures reader.old) }
    ensures read { IfErr result (λ e. e ≡ Read → R.failures reader.old < R.failures reader.new) }
{
    next_frame(reader, frame)?;
    if frame.is_empty() {
        return Ok(None);
    }
    let batch = batch_in(alloc, number, frame)?;
    Ok(Some(batch))
}

/// Reads the next frame into the buffer and returns its reply, or none at the end of the input. The
/// frame has this number.
pub fn next_reply<R: Source>(
    alloc: Global,
    number: u64,
    reader: &mut R,
    frame: &mut Vec<u8>,
) -> Result<Option<Reply>, Failure>
    ensures taken { IfOk result (λ found. IfSome found (λ reply.
        Consumes (R.remaining reader.old) (R.remaining reader.new) frame.new.items
        × SpellsReply frame.new.items reply)) }
    ensures end { IfOk result (λ found. IfNone found (IsAtEnd (R.remaining reader.old))) }
    ensures fails { IfErr result (FailsFrame Replies number (R.remaining reader.old)) }
    ensures ok { OnOk result (R.failures reader.new ≡ R.failures reader.old) }
    ensures read { IfErr result (λ e. e ≡ Read → R.failures reader.old < R.failures reader.new) }
{
    next_frame(reader, frame)?;
    if frame.is_empty() {
        return Ok(None);
    }
    let reply = reply_in(alloc, number, frame)?;
    Ok(Some(reply))
}

/// Returns the batch of a frame, which has this number.
pub fn batch_in(alloc: Global, number: u64, frame: &[u8]) -> Result<Batch, Failure>
    requires settled { length frame.now ≤ frame_length frame.now }
    ensures batch { IfOk result (IsFrameOf frame.now) }
    ensures fails { IfErr result (IsFailureOfFrame Batches number frame.now) }
{
    match decode_batch(alloc, frame) {
        Ok((batch, _)) => Ok(batch),
        Err(refusal) => Err(Failure::of_frame(number, refusal)),
    }
}

/// Returns the reply of a frame, which has this number.
pub fn reply_in(alloc: Global, number: u64, frame: &[u8]) -> Result<Reply, Failure>
    requires settled { length frame.now ≤ frame_length frame.now }
    ensures reply { IfOk result (SpellsReply frame.now) }
    ensures fails { IfErr result (IsFailureOfFrame Replies number frame.now) }
{
    match decode_reply(alloc, frame) {
        Ok((reply, _)) => Ok(reply),
        Err(refusal) => Err(Failure::of_frame(number, refusal)),
    }
}
