//! The record of an answer, in bytes for another program.

ghost use Rattle.std.specs.Prelude.{◌≡◌, ◌↔◌, ◌<◌, ◌∷◌, ◌++◌, ℕ, take, IfOk, IfSome, OnOk};
ghost use Rattle.std.specs.Io.KnownBytes.{Appends};
ghost use Rattle.wire.specs.Spelling.{signed_text};
ghost use Rattle.replay_output.specs.Record.{answer_record};

use crate::stream::AnswerError;
use keyspace::Answer;
use std::alloc::{AllocError, Global};
use wire::{Sink, encode_reply, write_and_flush};

/// Writes the record of an answer, and flushes the writer. The record is passed on in one piece if
/// the writer takes all of it at once.
///
/// Returns `Memory` also if the frame of the reply exceeds
/// [`MAX_BODY_LENGTH`](wire::MAX_BODY_LENGTH). The right reply to a batch that was read doesn't.
pub fn write_record<W: Sink>(alloc: Global, out: &mut W, answer: &Answer) -> Result<(), AnswerError>
    ensures entire { OnOk result (Appends (W.given out.old) (W.given out.new)
        (answer_record answer.now)) }
    ensures nothing { result ≡ Err AnswerError.Memory → W.given out.new ≡ W.given out.old }
    ensures prefix { result ≡ Err AnswerError.Write → IfSome (W.given out.new) (λ _.
        (n : ℕ) × Appends (W.given out.old) (W.given out.new) (take n (answer_record answer.now))) }
    ensures write { (result ≡ Err AnswerError.Write) ↔ (W.failures out.old < W.failures out.new) }
    ensures ok { OnOk result (W.failures out.new ≡ W.failures out.old) }
    ensures untouched { result ≡ Err AnswerError.Memory
        → W.failures out.new ≡ W.failures out.old }
{
    let Some(bytes) = encode_record(alloc, answer) else {
        return Err(AnswerError::Memory);
    };
    write_and_flush(out, &bytes).map_err(|_| AnswerError::Write)
}

// Returns the record of an answer, or none if memory is refused or the frame is too long.
fn encode_record(alloc: Global, answer: &Answer) -> Option<Vec<u8>>
    ensures bytes { IfSome result (λ bytes. bytes.items ≡ answer_record answer.now) }
{
    match answer {
        Answer::Reply(reply) => {
            let frame = encode_reply(alloc, reply).ok()?;
            let mut bytes = begin_record(alloc, 1, reply.version).ok()?;
            bytes.extend_from_slice(&frame).ok()?;
            Some(bytes)
        }
        Answer::Never(version) => begin_record(alloc, 2, *version).ok(),
        Answer::Held(version) => begin_record(alloc, 3, *version).ok(),
    }
}

// Returns the status and the version.
fn begin_record(alloc: Global, status: u8, version: i64) -> Result<Vec<u8>, AllocError>
    ensures begins { IfOk result (λ bytes. bytes.items ≡ status ∷ signed_text version) }
{
    let mut bytes = Vec::new(alloc);
    bytes.push(status)?;
    bytes.extend_from_slice(&version.cast_unsigned().to_be_bytes())?;
    Ok(bytes)
}
