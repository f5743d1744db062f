//! A reply as a frame in a buffer.

ghost use Rattle.std.specs.Prelude.{◌≡◌, ◌≤◌, ◌<◌, length, take, IfOk, IfErr, Some};
ghost use Rattle.keyspace.specs.declared.answer.Answer.TheVariants as answer;
ghost use Rattle.wire.specs.Spelling.{SpellsReply};
ghost use Rattle.archcaraway_c.specs.Given.{WriteRefuses};

use crate::refusal::Refusal;
use keyspace::Reply;
use std::alloc::Global;
use wire::encode_reply;

/// Writes a frame to the front of a buffer, and returns its length.
pub fn put_frame(frame: &[u8], buffer: &mut [u8]) -> usize
    requires room { length frame.now ≤ length buffer.old }
    ensures written { take result buffer.new ≡ frame.now }
    ensures within { result ≤ length buffer.new }
    ensures length { length buffer.new ≡ length buffer.old }
{
    buffer[..frame.len()].copy_from_slice(frame);
    frame.len()
}

/// Writes a frame to the front of a buffer, and returns its length. Returns `Buffer` if the buffer
/// is shorter than that.
pub fn write_frame(frame: &[u8], buffer: &mut [u8]) -> Result<usize, Refusal>
    ensures written { IfOk result (λ count. take count buffer.new ≡ frame.now) }
    ensures within { IfOk result (λ count. count ≤ length buffer.new) }
    ensures length { length buffer.new ≡ length buffer.old }
    ensures small { IfErr result (λ refusal. (refusal ≡ Refusal.Buffer (length frame.now))
        × (length buffer.old < length frame.now)) }
{
    if buffer.len() < frame.len() {
        return Err(Refusal::Buffer(frame.len()));
    }
    Ok(put_frame(frame, buffer))
}

/// Writes the frame of a reply to the front of a buffer, and returns its length. Returns `Buffer`
/// if the buffer is shorter than that, and `Wire` of `Memory` if memory is refused.
pub fn write_reply(alloc: Global, reply: &Reply, buffer: &mut [u8]) -> Result<usize, Refusal>
    ensures spelled { IfOk result (λ count. SpellsReply (take count buffer.new) reply.now) }
    ensures within { IfOk result (λ count. count ≤ length buffer.new) }
    ensures refused { IfErr result
        (λ refusal. WriteRefuses (Some (answer.Reply reply.now)) (length buffer.old) refusal) }
{
    let frame = match encode_reply(alloc, reply) {
        Ok(frame) => frame,
        Err(fault) => return Err(Refusal::Wire(fault)),
    };
    match write_frame(&frame, buffer) {
        Ok(count) => Ok(count),
        Err(refusal) => Err(refusal),
    }
}
