//! The line of an answer that is printed as it comes.

ghost use Rattle.std.specs.Prelude.{◌≡◌, ◌↔◌, ◌<◌, ℕ, take, IfSome, OnOk};
ghost use Rattle.std.specs.Io.KnownBytes.{Appends};
ghost use Rattle.replay_output.specs.Lines.{line};

use crate::line::text_of;
use crate::options::Style;
use keyspace::Answer;
use std::alloc::Global;
use wire::{Sink, StdSink, write_and_flush};

/// Why an answer was not written.
#[derive(Clone, Copy, Debug, PartialEq, Eq)]
pub enum AnswerError {
    /// Memory was refused. Nothing was written.
    Memory,
    /// The writer failed. A prefix is written.
    Write,
}

/// Prints the line of an answer to a proxy, if it is shown, and flushes the writer. The line is
/// passed on in one piece if the writer takes all of it at once.
pub fn print_line<W: Sink>(
    alloc: Global,
    style: Style,
    proxy: usize,
    answer: &Answer,
    out: &mut W,
) -> Result<(), AnswerError>
    ensures entire { OnOk result (Appends (W.given out.old) (W.given out.new)
        (line style proxy answer.now)) }
    ensures nothing { result ≡ Err AnswerError.Memory → W.given out.new ≡ W.given out.old }
    ensures prefix { result ≡ Err AnswerError.Write → IfSome (W.given out.new) (λ _.
        (n : ℕ) × Appends (W.given out.old) (W.given out.new)
        (take n (line style proxy answer.now))) }
    ensures write { (result ≡ Err AnswerError.Write) ↔ (W.failures out.old < W.failures out.new) }
    ensures ok { OnOk result (W.failures out.new ≡ W.failures out.old) }
    ensures untouched { result ≡ Err AnswerError.Memory
        → W.failures out.new ≡ W.failures out.old }
{
    let Some(text) = bytes_of(alloc, style, proxy, answer) else {
        return Err(AnswerError::Memory);
    };
    write_and_flush(out, &text).map_err(|_| AnswerError::Write)
}

// Returns the line of an answer to this proxy as bytes, or none if memory is refused.
fn bytes_of(alloc: Global, style: Style, proxy: usize, answer: &Answer) -> Option<Vec<u8>>
    ensures text { IfSome result (λ text. text.items ≡ line style proxy answer.now) }
{
    let text = text_of(alloc, style, proxy, answer)?;
    let mut bytes = StdSink::new(Vec::new(alloc));
    text.print(&mut bytes).ok()?;
    Some(bytes.into_inner())
}
