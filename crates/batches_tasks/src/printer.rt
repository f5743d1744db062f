//! From frames to what is printed of each.

ghost use Rattle.std.specs.Prelude.{◌≡◌, ◌≢◌, ◌<◌, ◌≤◌, ℕ, List, IfOk, IfErr, OnOk, length, None};
ghost use Rattle.std.specs.Io.KnownBytes.{Appends, Consumes, IsAtEnd};
ghost use Rattle.wire.specs.FrameLength.{frame_length};
ghost use Rattle.batches_tasks.specs.Failing.{FailsFrame, IsFailureOfFrame};
ghost use Rattle.batches_tasks.specs.Lines.{IsPrinted};
ghost use Rattle.batches_tasks.specs.ErrorText.{ReportsText, progress_length};
ghost use Rattle.batches_tasks.specs.Turned.{Stops, TurnsAll};
ghost use Rattle.batches_tasks.specs.declared.failure.Failure.TheVariants.{Read, Write};

use crate::decoder::line_of;
use crate::failure::Failure;
use crate::form::OutputForm;
use crate::frame::next_frame;
use crate::progress::FileProgress;
use crate::viewer::table_of;
use batches_arguments::Kind;
use std::alloc::Global;
use wire::{Sink, Source, write_all};

/// Reads frames to the end of the input and prints each in this form. After a failure, other than
/// of the writer, the frames before it are printed completely.
pub fn print_frames<R: Source, W: Sink, E: Sink>(
    alloc: Global,
    kind: Kind,
    form: OutputForm,
    reader: &mut R,
    writer: &mut W,
    error: &mut E,
    progress: &mut FileProgress,
) -> Result<(), Failure>
    ensures turned { OnOk result (TurnsAll (IsPrinted kind form) (R.remaining reader.old)
        (W.given writer.old) (W.given writer.new)) }
    ensures refused { IfErr result (λ e. e ≢ Write → Stops (IsPrinted kind form) (FailsFrame kind)
        (R.remaining reader.old) (W.given writer.old) (W.given writer.new) e) }
    ensures read { IfErr result (λ e. e ≡ Read → R.failures reader.old < R.failures reader.new) }
    ensures write { IfErr result (λ e. e ≡ Write → W.failures writer.old < W.failures writer.new) }
    ensures ok { OnOk result (W.failures writer.new ≡ W.failures writer.old) }
    ensures length { progress_length progress.new ≡ progress_length progress.old }
    ensures reported { ReportsText (E.given error.old) (E.given error.new) (E.failures error.old)
        (E.failures error.new) }
    ensures quiet { progress_length progress.old ≡ None → error.new ≡ error.old }
{
    let mut frame = Vec::new(alloc);
    for number in 1..u64::MAX {
        let length = print_next(alloc, kind, form, number, reader, writer, &mut frame)?;
        if length == 0 {
            return Ok(());
        }
        progress.advance(error, length);
    }
    // The number of one frame more wouldn't fit. No input is so long.
    Err(Failure::Memory)
}

// Reads the next frame and prints it. Returns its length in bytes, 0 at the end of the input.
fn print_next<R: Source, W: Sink>(
    alloc: Global,
    kind: Kind,
    form: OutputForm,
    number: u64,
    reader: &mut R,
    writer: &mut W,
    frame: &mut Vec<u8>,
) -> Result<usize, Failure>
    ensures printed { IfOk result (λ length. 0 < length → (frame text : List ℕ)
        × Consumes (R.remaining reader.old) (R.remaining reader.new) frame
        × IsPrinted kind form frame text
        × Appends (W.given writer.old) (W.given writer.new) text) }
    ensures end { IfOk result (λ length. length ≡ 0
        → IsAtEnd (R.remaining reader.old) × (W.given writer.new ≡ W.given writer.old)) }
    ensures refused { IfErr result (λ e. e ≢ Write → W.given writer.new ≡ W.given writer.old) }
    ensures fails { IfErr result (FailsFrame kind number (R.remaining reader.old)) }
    ensures read_ok { OnOk result (R.failures reader.new ≡ R.failures reader.old) }
    ensures read { IfErr result (λ e. e ≡ Read → R.failures reader.old < R.failures reader.new) }
    ensures write { IfErr result (λ e. e ≡ Write → W.failures writer.old < W.failures writer.new) }
    ensures ok { OnOk result (W.failures writer.new ≡ W.failures writer.old) }
{
    next_frame(reader, frame)?;
    if frame.is_empty() {
        return Ok(0);
    }
    let text = text_of(alloc, kind, form, number, frame)?;
    write_all(writer, &text)?;
    Ok(frame.len())
}

// Returns what is printed of a frame.
fn text_of(
    alloc: Global,
    kind: Kind,
    form: OutputForm,
    number: u64,
    frame: &[u8],
) -> Result<Vec<u8>, Failure>
    requires settled { length frame.now ≤ frame_length frame.now }
    ensures printed { IfOk result (λ text. IsPrinted kind form frame.now text.items) }
    ensures fails { IfErr result (IsFailureOfFrame kind number frame.now) }
{
    match form {
        OutputForm::Line => line_of(alloc, kind, number, frame),
        OutputForm::Table { full } => table_of(alloc, kind, full, number, frame),
    }
}
