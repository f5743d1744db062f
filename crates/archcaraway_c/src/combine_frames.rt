//! The combination of the replies of all shards, from frames to a frame.

ghost use Rattle.std.specs.Prelude.{◌≡◌, ◌≤◌, [], length, map, take, vec_len, IfOk, IfErr};
ghost use Rattle.shards.specs.Combined.{IsCombined};
ghost use Rattle.wire.specs.Spelling.{SpellsReply};
ghost use Rattle.archcaraway_c.specs.ShardFrames.{AreRead, FrontRefuses, RepliesRefuse};
ghost use Rattle.archcaraway_c.specs.ShardFrames.{EachRefuses};
ghost use Rattle.archcaraway_c.specs.ShardFrames.{IsCombinedFrame, CombineRefuses};

use crate::batch_frame::decode_frame;
use crate::combine_refusal::CombineRefusal;
use crate::refusal::Refusal;
use crate::reply_frame::write_reply;
use keyspace::{Batch, Reply};
use shards::{CombineError, ReadIndices, ShardReply, SplitPoints, combine, number_all};
use std::alloc::{AllocError, Global};
use wire::{WireError, decode_reply};

/// Combines the replies of all shards to the batch of a frame, writes the frame of the combined
/// reply to the front of the buffer, and returns the length of that.
pub fn combine_frames(
    alloc: Global,
    points: &SplitPoints,
    frame: &[u8],
    replies: &[u8],
    buffer: &mut [u8],
) -> Result<usize, CombineRefusal>
    ensures combined { IfOk result
        (λ count. IsCombinedFrame points.now frame.now replies.now (take count buffer.new)) }
    ensures within { IfOk result (λ count. count ≤ length buffer.new) }
    ensures refused { IfErr result (λ refusal. CombineRefuses points.now frame.now replies.now
        (length buffer.old) refusal) }
{
    let batch = match decode_frame(alloc, frame) {
        Ok(batch) => batch,
        Err(refusal) => return Err(CombineRefusal::Frame(refusal)),
    };
    let all = match number_all(alloc, &batch, points) {
        Ok(all) => all,
        Err(AllocError) => return Err(CombineRefusal::Frame(Refusal::Wire(WireError::Memory))),
    };
    let each = match read_replies(alloc, replies, all) {
        Ok(each) => each,
        Err(refusal) => return Err(refusal),
    };
    let reply = match combine_each(alloc, &batch, &each) {
        Ok(reply) => reply,
        Err(refusal) => return Err(refusal),
    };
    match write_reply(alloc, &reply, buffer) {
        Ok(count) => Ok(count),
        Err(refusal) => Err(CombineRefusal::Frame(refusal)),
    }
}

// Decodes the replies of all shards, and puts the indices of its read ranges beside each.
fn read_replies(
    alloc: Global,
    bytes: &[u8],
    all: Vec<ReadIndices>,
) -> Result<Vec<ShardReply>, CombineRefusal>
    ensures replies { IfOk result
        (λ each. AreRead bytes.now (map (λ s. s.reply) each.items) []) }
    ensures reads { IfOk result (λ each. map (λ s. s.reads) each.items ≡ all.items) }
    ensures refused { IfErr result (λ refusal. RepliesRefuse (vec_len all) bytes.now refusal) }
{
    let mut each = Vec::new(alloc);
    let mut rest = bytes;
    for reads in all {
        let (reply, count) = match read_front(alloc, rest, each.len()) {
            Ok(found) => found,
            Err(refusal) => return Err(refusal),
        };
        let Ok(()) = each.push(ShardReply { reply, reads }) else {
            return Err(CombineRefusal::Frame(Refusal::Wire(WireError::Memory)));
        };
        let (_, later) = rest.split_at(count);
        rest = later;
    }
    if !rest.is_empty() {
        return Err(CombineRefusal::Behind);
    }
    Ok(each)
}

// Decodes the reply at the front, which is that of the shard, and returns it and its length.
fn read_front(alloc: Global, bytes: &[u8], shard: usize) -> Result<(Reply, usize), CombineRefusal>
    ensures within { IfOk result (λ found. found.1 ≤ length bytes.now) }
    ensures spelled { IfOk result (λ found. SpellsReply (take found.1 bytes.now) found.0) }
    ensures refused { IfErr result (λ refusal. FrontRefuses shard bytes.now refusal) }
{
    match decode_reply(alloc, bytes) {
        Ok(found) => Ok(found),
        Err(fault) => Err(CombineRefusal::Reply(shard, fault)),
    }
}

// Combines replies, of which there is at least one.
fn combine_each(alloc: Global, batch: &Batch, each: &[ShardReply]) -> Result<Reply, CombineRefusal>
    ensures combined { IfOk result (λ reply. IsCombined batch.now each.now reply) }
    ensures refused { IfErr result (λ refusal. EachRefuses batch.now each.now refusal) }
{
    match combine(alloc, batch, each) {
        Ok(reply) => Ok(reply),
        Err(CombineError::Misfit(shard, cause)) => Err(CombineRefusal::Misfit(shard, cause)),
        Err(CombineError::NoReply | CombineError::Memory) => {
            Err(CombineRefusal::Frame(Refusal::Wire(WireError::Memory)))
        }
    }
}
