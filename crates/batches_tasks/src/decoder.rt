//! From frames to lines of JSON.

ghost use Rattle.std.specs.Prelude.{◌≡◌, ◌≢◌, ◌<◌, ◌≤◌, IfOk, IfErr, OnOk, length, None};
ghost use Rattle.wire.specs.FrameLength.{frame_length};
ghost use Rattle.batches_tasks.specs.Failing.{FailsFrame, IsFailureOfFrame};
ghost use Rattle.batches_tasks.specs.Lines.{IsBatchLine, IsReplyLine, BecomesLine};
ghost use Rattle.batches_tasks.specs.ErrorText.{ReportsText, progress_length};
ghost use Rattle.batches_tasks.specs.Turned.{Stops, TurnsAll};
ghost use Rattle.batches_tasks.specs.declared.failure.Failure.TheVariants.{Read, Write};
ghost use Rattle.batches_arguments.specs.declared.kind.Kind.TheVariants.{Batches, Replies};

use crate::failure::Failure;
use crate::form::OutputForm;
use crate::frame::{batch_in, reply_in};
use crate::printer::print_frames;
use crate::progress::FileProgress;
use batches_arguments::Kind;
use json_lines::{write_batch, write_reply};
use std::alloc::Global;
use wire::{Sink, Source};

/// Reads frames to the end of the input and writes the line of each. After a failure, other than of
/// the writer, the lines of the frames before it are written completely.
pub fn decode<R: Source, W: Sink, E: Sink>(
    alloc: Global,
    kind: Kind,
    reader: &mut R,
    writer: &mut W,
    error: &mut E,
    progress: &mut FileProgress,
) -> Result<(), Failure>
    ensures turned { OnOk result (TurnsAll (BecomesLine kind) (R.remaining reader.old)
        (W.given writer.old) (W.given writer.new)) }
    ensures refused { IfErr result (λ e. e ≢ Write → Stops (BecomesLine kind) (FailsFrame kind)
        (R.remaining reader.old) (W.given writer.old) (W.given writer.new) e) }
    ensures read { IfErr result (λ e. e ≡ Read → R.failures reader.old < R.failures reader.new) }
    ensures write { IfErr result (λ e. e ≡ Write → W.failures writer.old < W.failures writer.new) }
    ensures ok { OnOk result (W.failures writer.new ≡ W.failures writer.old) }
    ensures length { progress_length progress.new ≡ progress_length progress.old }
    ensures reported { ReportsText (E.given error.old) (E.given error.new) (E.failures error.old)
        (E.failures error.new) }
    ensures quiet { progress_length progress.old ≡ None → error.new ≡ error.old }
{
    print_frames(
        alloc,
        kind,
        OutputForm::Line,
        reader,
        writer,
        error,
        progress,
    )
}

/// Returns the line of what a frame says, with its line feed.
pub fn line_of(alloc: Global, kind: Kind, number: u64, frame: &[u8]) -> Result<Vec<u8>, Failure>
    requires settled { length frame.now ≤ frame_length frame.now }
    ensures line { IfOk result (λ line. BecomesLine kind frame.now line.items) }
    ensures fails { IfErr result (IsFailureOfFrame kind number frame.now) }
{
    match kind {
        Kind::Batches => batch_line(alloc, number, frame),
        Kind::Replies => reply_line(alloc, number, frame),
    }
}

fn batch_line(alloc: Global, number: u64, frame: &[u8]) -> Result<Vec<u8>, Failure>
    requires settled { length frame.now ≤ frame_length frame.now }
    ensures line { IfOk result (λ line. IsBatchLine frame.now line.items) }
    ensures fails { IfErr result (IsFailureOfFrame Batches number frame.now) }
{
    let batch = batch_in(alloc, number, frame)?;
    let mut line = write_batch(alloc, &batch)?;
    line.push(b'\n')?;
    Ok(line)
}

fn reply_line(alloc: Global, number: u64, frame: &[u8]) -> Result<Vec<u8>, Failure>
    requires settled { length frame.now ≤ frame_length frame.now }
    ensures line { IfOk result (λ line. IsReplyLine frame.now line.items) }
    ensures fails { IfErr result (IsFailureOfFrame Replies number frame.now) }
{
    let reply = reply_in(alloc, number, frame)?;
    let mut line = write_reply(alloc, &reply)?;
    line.push(b'\n')?;
    Ok(line)
}
