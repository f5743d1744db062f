//! What is next in a file, if it is no frame of a batch.

ghost use Rattle.std.specs.Prelude.{◌≡◌, ◌≢◌, ◌<◌, ◌≤◌, Some, length, take, IfErr, IfOk, IsTrue};
ghost use Rattle.std.specs.Prelude.{not};
ghost use Rattle.keyspace.specs.declared.reply.Reply.{Reply as ReplyValue};
ghost use Rattle.wire.specs.FrameLength.{frame_length};
ghost use Rattle.wire.specs.Reading.{batch_fault, reply_fault};
ghost use Rattle.wire.specs.Spelling.{SpellsReply};
ghost use Rattle.replay_diagnosis.specs.Content.{BeginsAsJson, IsFindingAt, IsNoJson, IsUnreadable};

use crate::position::Position;
use crate::run_findings::Finding;
use std::alloc::Global;
use wire::{WireError, decode_reply, frame_length};

/// Returns what is at a position of a file, if decoding a batch there had this fault. The front is
/// as much of the bytes from there on as settles what the frame says, or all of them.
pub fn classify(alloc: Global, position: Position, front: &[u8], fault: WireError) -> Finding
    requires some { 0 < length front.now }
    requires fault { fault ≢ WireError.Memory → batch_fault front.now ≡ Some fault }
    ensures finding { IsFindingAt position (Some front.now) result }
    ensures readable { ¬ IsUnreadable result }
{
    match fault {
        WireError::Memory => Finding::Memory,
        fault => faulty(alloc, position, front, fault),
    }
}

// Returns what is at a position where the frame of a batch has this fault.
fn faulty(alloc: Global, position: Position, front: &[u8], fault: WireError) -> Finding
    requires some { 0 < length front.now }
    requires fault { batch_fault front.now ≡ Some fault }
    ensures finding { IsFindingAt position (Some front.now) result }
    ensures readable { ¬ IsUnreadable result }
{
    if is_json(position, front) {
        return Finding::Json;
    }
    let settled = frame_length(front);
    if front.len() < settled {
        return Finding::Truncated {
            position,
            missing: (settled - front.len()) as u64,
        };
    }
    without_batch(alloc, position, front, fault)
}

// Returns whether the front is that of a file that begins as JSON does.
fn is_json(position: Position, front: &[u8]) -> bool
    requires some { 0 < length front.now }
    ensures start { IsTrue result → position.offset ≡ 0 }
    ensures json { IsTrue result → BeginsAsJson front.now }
    ensures no_json { IsTrue (not result) → IsNoJson position front.now }
{
    position.offset == 0 && front[0] == b'{'
}

// Returns what is at a position where the frame has this fault: a reply, or neither.
fn without_batch(alloc: Global, position: Position, front: &[u8], fault: WireError) -> Finding
    requires some { 0 < length front.now }
    requires complete { frame_length front.now ≤ length front.now }
    requires fault { batch_fault front.now ≡ Some fault }
    requires no_json { IsNoJson position front.now }
    ensures finding { IsFindingAt position (Some front.now) result }
    ensures readable { ¬ IsUnreadable result }
{
    match reply_length(alloc, front) {
        Ok(_) => Finding::Reply(position),
        Err(WireError::Memory) => Finding::Memory,
        Err(_) => Finding::NotAFrame(position, fault),
    }
}

// Returns how many bytes the frame of a reply at the front has, or its fault.
fn reply_length(alloc: Global, front: &[u8]) -> Result<usize, WireError>
    ensures reply { IfOk result (λ length. (reply : ReplyValue)
        × SpellsReply (take length front.now) reply) }
    ensures fault { IfErr result (λ e. e ≢ WireError.Memory → reply_fault front.now ≡ Some e) }
{
    let (_, length) = decode_reply(alloc, front)?;
    Ok(length)
}
