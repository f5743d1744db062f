//! From lines of JSON to frames.

ghost use Rattle.std.specs.Prelude.{◌≡◌, ◌≢◌, ◌<◌, ℕ, List, IfOk, IfErr, OnOk, None};
ghost use Rattle.std.specs.List.{list_all};
ghost use Rattle.std.specs.Io.KnownBytes.{Appends, Consumes, IsAtEnd};
ghost use Rattle.batches_tasks.specs.Lines.{IsBatchFrame, IsReplyFrame, IsFrame, BecomesFrame};
ghost use Rattle.batches_tasks.specs.Lines.{is_blank};
ghost use Rattle.batches_tasks.specs.Failing.{FailsLine, IsFailureOfLine};
ghost use Rattle.batches_tasks.specs.ErrorText.{ReportsText, progress_length};
ghost use Rattle.batches_tasks.specs.Turned.{Stops, TurnsAll};
ghost use Rattle.batches_tasks.specs.declared.failure.Failure.TheVariants.{Write};
ghost use Rattle.batches_arguments.specs.declared.kind.Kind.TheVariants.{Batches, Replies};

use crate::failure::Failure;
use crate::progress::FileProgress;
use batches_arguments::Kind;
use json_columns::{column_of, is_space};
use json_lines::{Scratch, read_batch, read_reply};
use std::alloc::Global;
use std::io::BufRead;
use wire::{Sink, encode_batch, encode_reply, write_all};

/// Reads lines to the end of the input and writes the frame of each. Blank lines are passed over,
/// and counted. After a failure, other than of the writer, the frames of the lines before it are
/// written completely.
pub fn encode<R: BufRead, W: Sink, E: Sink>(
    alloc: Global,
    kind: Kind,
    reader: &mut R,
    writer: &mut W,
    error: &mut E,
    progress: &mut FileProgress,
) -> Result<(), Failure>
    ensures turned { OnOk result (TurnsAll (BecomesFrame kind) (R.remaining reader.old)
        (W.given writer.old) (W.given writer.new)) }
    ensures refused { IfErr result (λ e. e ≢ Write → Stops (BecomesFrame kind) (FailsLine kind)
        (R.remaining reader.old) (W.given writer.old) (W.given writer.new) e) }
    ensures write { IfErr result (λ e. e ≡ Write → W.failures writer.old < W.failures writer.new) }
    ensures ok { OnOk result (W.failures writer.new ≡ W.failures writer.old) }
    ensures length { progress_length progress.new ≡ progress_length progress.old }
    ensures reported { ReportsText (E.given error.old) (E.given error.new) (E.failures error.old)
        (E.failures error.new) }
    ensures quiet { progress_length progress.old ≡ None → error.new ≡ error.old }
{
    let mut scratch = Scratch::new(alloc);
    let mut line = Vec::new(alloc);
    for number in 1..u64::MAX {
        let length = encode_next(alloc, kind, number, reader, writer, &mut line, &mut scratch)?;
        if length == 0 {
            return Ok(());
        }
        progress.advance(error, length);
    }
    // The number of one line more wouldn't fit. No input is so long.
    Err(Failure::Memory)
}

// Reads the next line and writes its frame. Returns its length in bytes, 0 at the end of the input.
fn encode_next<R: BufRead, W: Sink>(
    alloc: Global,
    kind: Kind,
    number: u64,
    reader: &mut R,
    writer: &mut W,
    line: &mut Vec<u8>,
    scratch: &mut Scratch,
) -> Result<usize, Failure>
    ensures line { IfOk result (λ length. 0 < length → (line text : List ℕ)
        × Consumes (R.remaining reader.old) (R.remaining reader.new) line
        × BecomesFrame kind line text
        × Appends (W.given writer.old) (W.given writer.new) text) }
    ensures end { IfOk result (λ length. length ≡ 0
        → IsAtEnd (R.remaining reader.old) × (W.given writer.new ≡ W.given writer.old)) }
    ensures refused { IfErr result (λ e. e ≢ Write → W.given writer.new ≡ W.given writer.old) }
    ensures fails { IfErr result (FailsLine kind number (R.remaining reader.old)) }
    ensures write { IfErr result (λ e. e ≡ Write → W.failures writer.old < W.failures writer.new) }
    ensures ok { OnOk result (W.failures writer.new ≡ W.failures writer.old) }
{
    line.clear();
    let length = reader.read_until(b'\n', line)?;
    if length == 0 {
        return Ok(0);
    }
    if !is_blank(line) {
        let frame = frame_of(alloc, kind, number, line, scratch)?;
        write_all(writer, &frame)?;
    }
    Ok(length)
}

// Returns whether a line has nothing but blanks.
fn is_blank(line: &[u8]) -> bool
    ensures exact { result ≡ is_blank line.now }
{
    for byte in line {
        if !is_space(*byte) {
            return false;
        }
    }
    true
}

// Returns the frame of what a line says.
fn frame_of(
    alloc: Global,
    kind: Kind,
    number: u64,
    line: &[u8],
    scratch: &mut Scratch,
) -> Result<Vec<u8>, Failure>
    ensures frame { IfOk result (λ frame. IsFrame kind line.now frame.items) }
    ensures fails { IfErr result (IsFailureOfLine kind number line.now) }
{
    match kind {
        Kind::Batches => batch_frame(alloc, number, line, scratch),
        Kind::Replies => reply_frame(alloc, number, line, scratch),
    }
}

fn batch_frame(
    alloc: Global,
    number: u64,
    line: &[u8],
    scratch: &mut Scratch,
) -> Result<Vec<u8>, Failure>
    ensures frame { IfOk result (λ frame. IsBatchFrame line.now frame.items) }
    ensures fails { IfErr result (IsFailureOfLine Batches number line.now) }
{
    match read_batch(alloc, line, scratch) {
        Ok(batch) => match encode_batch(alloc, &batch) {
            Ok(frame) => Ok(frame),
            Err(refusal) => Err(Failure::of_long(number, refusal)),
        },
        Err(refusal) => {
            let column = column_of(alloc, line, &refusal, scratch);
            Err(Failure::of_line(number, column, refusal))
        }
    }
}

fn reply_frame(
    alloc: Global,
    number: u64,
    line: &[u8],
    scratch: &mut Scratch,
) -> Result<Vec<u8>, Failure>
    ensures frame { IfOk result (λ frame. IsReplyFrame line.now frame.items) }
    ensures fails { IfErr result (IsFailureOfLine Replies number line.now) }
{
    match read_reply(alloc, line, scratch) {
        Ok(reply) => match encode_reply(alloc, &reply) {
            Ok(frame) => Ok(frame),
            Err(refusal) => Err(Failure::of_long(number, refusal)),
        },
        Err(refusal) => {
            let column = column_of(alloc, line, &refusal, scratch);
            Err(Failure::of_line(number, column, refusal))
        }
    }
}
