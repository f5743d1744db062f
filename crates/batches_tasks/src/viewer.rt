//! Frames as tables for people.

ghost use Rattle.std.specs.Prelude.{◌≡◌, ◌≢◌, ◌<◌, ◌≤◌, IfOk, IfErr, OnOk, length, None};
ghost use Rattle.wire.specs.FrameLength.{frame_length};
ghost use Rattle.batches_tasks.specs.Failing.{FailsFrame, IsFailureOfFrame};
ghost use Rattle.batches_tasks.specs.Lines.{IsShown};
ghost use Rattle.batches_tasks.specs.ErrorText.{ReportsText, progress_length};
ghost use Rattle.batches_tasks.specs.Turned.{Stops, TurnsAll};
ghost use Rattle.batches_tasks.specs.declared.failure.Failure.TheVariants.{Read, Write};
ghost use Rattle.batches_arguments.specs.declared.kind.Kind.TheVariants.{Batches, Replies};

use crate::failure::Failure;
use crate::form::OutputForm;
use crate::frame::{batch_in, reply_in};
use crate::printer::print_frames;
use crate::progress::FileProgress;
use crate::table::{batch_table, reply_table};
use batches_arguments::Kind;
use std::alloc::Global;
use wire::{Sink, Source};

/// Reads frames to the end of the input and prints a table of each. Wide keys are cut, unless they
/// are wanted in full. After a failure, other than of the writer, the tables of the frames before
/// it are written completely.
pub fn show<R: Source, W: Sink, E: Sink>(
    alloc: Global,
    kind: Kind,
    full: bool,
    reader: &mut R,
    writer: &mut W,
    error: &mut E,
    progress: &mut FileProgress,
) -> Result<(), Failure>
    ensures turned { OnOk result (TurnsAll (IsShown kind) (R.remaining reader.old)
        (W.given writer.old) (W.given writer.new)) }
    ensures refused { IfErr result (λ e. e ≢ Write → Stops (IsShown kind) (FailsFrame kind)
        (R.remaining reader.old) (W.given writer.old) (W.given writer.new) e) }
    ensures read { IfErr result (λ e. e ≡ Read → R.failures reader.old < R.failures reader.new) }
    ensures write { IfErr result (λ e. e ≡ Write → W.failures writer.old < W.failures writer.new) }
    ensures ok { OnOk result (W.failures writer.new ≡ W.failures writer.old) }
    ensures length { progress_length progress.new ≡ progress_length progress.old }
    ensures reported { ReportsText (E.given error.old) (E.given error.new) (E.failures error.old)
        (E.failures error.new) }
    ensures quiet { progress_length progress.old ≡ None → error.new ≡ error.old }
{
    print_frames(
        alloc,
        kind,
        OutputForm::Table { full },
        reader,
        writer,
        error,
        progress,
    )
}

/// Returns the table of what a frame says.
pub fn table_of(
    alloc: Global,
    kind: Kind,
    full: bool,
    number: u64,
    frame: &[u8],
) -> Result<Vec<u8>, Failure>
    requires settled { length frame.now ≤ frame_length frame.now }
    ensures shown { IfOk result (λ table. IsShown kind frame.now table.items) }
    ensures fails { IfErr result (IsFailureOfFrame kind number frame.now) }
{
    match kind {
        Kind::Batches => batch_text(alloc, full, number, frame),
        Kind::Replies => reply_text(alloc, number, frame),
    }
}

fn batch_text(alloc: Global, full: bool, number: u64, frame: &[u8]) -> Result<Vec<u8>, Failure>
    requires settled { length frame.now ≤ frame_length frame.now }
    ensures shown { IfOk result (λ table. IsShown Batches frame.now table.items) }
    ensures fails { IfErr result (IsFailureOfFrame Batches number frame.now) }
{
    let batch = batch_in(alloc, number, frame)?;
    let table = batch_table(alloc, &batch, full)?;
    Ok(table.into_bytes())
}

fn reply_text(alloc: Global, number: u64, frame: &[u8]) -> Result<Vec<u8>, Failure>
    requires settled { length frame.now ≤ frame_length frame.now }
    ensures shown { IfOk result (λ table. IsShown Replies frame.now table.items) }
    ensures fails { IfErr result (IsFailureOfFrame Replies number frame.now) }
{
    let reply = reply_in(alloc, number, frame)?;
    let table = reply_table(alloc, &reply)?;
    Ok(table.into_bytes())
}
