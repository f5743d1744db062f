//! Split points that C gives by their keys.

ghost use Rattle.std.specs.Prelude.{◌≡◌, ◌≤◌, length, take, IfOk, IfErr};
ghost use Rattle.serial.specs.Shards.{shards};
ghost use Rattle.shards.specs.SplitPoints.{AreSplitPoints};
ghost use Rattle.archcaraway_c.specs.Points.{keys_given, PointsRefuse};
ghost use Rattle.archcaraway_c.specs.ShardFrames.{IsClippedFrame, ClipRefuses};
ghost use Rattle.archcaraway_c.specs.ShardFrames.{IsCombinedFrame, CombineRefuses};

use crate::clip_frame::clip_frame;
use crate::combine_frames::combine_frames;
use crate::combine_refusal::CombineRefusal;
use crate::given_keys::copy_keys;
use crate::points_refusal::{PointsRefusal, refusal_of_points};
use crate::refusal::Refusal;
use shards::{MAX_SPLIT_POINTS, SplitPoints};
use std::alloc::Global;
use std::marker::Model;

/// Split points that C holds by a handle. Contracts see the list of the keys.
#[derive(Drop)]
pub struct PointsObject {
    alloc: Global,
    points: SplitPoints,
}

impl Model for PointsObject {
    ghost use Rattle.std.specs.Prelude.{List, ℕ};

    ghost Value = { List (List ℕ) };

    ghost view = { λ o. o.points };
}

impl PointsObject {
    /// Takes keys as split points. They lie one by one among the bytes, and have these lengths.
    ///
    /// The first of these that holds decides. There are too many: `TooMany`. Reading from the
    /// front, a key is too long, or the bytes end before the keys do: `KeyLength`, `Argument`. A
    /// key isn't after the one before it, or the first is the empty key: `NotRising`. `Memory` may
    /// come instead of any but `TooMany`.
    pub fn new(alloc: Global, bytes: &[u8], lengths: &[usize]) -> Result<Self, PointsRefusal>
        ensures points { IfOk result (λ object. object ≡ keys_given bytes.now lengths.now) }
        ensures rising { IfOk result AreSplitPoints }
        ensures refused { IfErr result
            (λ refusal. PointsRefuse bytes.now lengths.now refusal) }
    {
        if lengths.len() > MAX_SPLIT_POINTS {
            return Err(PointsRefusal::TooMany);
        }
        let keys = match copy_keys(alloc, bytes, lengths) {
            Ok(keys) => keys,
            Err(refusal) => return Err(refusal),
        };
        match SplitPoints::checked(keys) {
            Ok(points) => {
                points.shard_count();
                Ok(PointsObject { alloc, points })
            }
            Err(error) => Err(refusal_of_points(error)),
        }
    }

    /// Returns the number of shards, from 1 to 64.
    pub fn shards(&self) -> usize
        ensures count { result ≡ length (shards self.now) }
    {
        self.points.shard_count()
    }

    /// Clips the batch of a frame to a shard, writes the frame of the clip to the front of the
    /// buffer, and returns the length of that. The frame is of wire version 2.
    ///
    /// The first of these that holds decides. There is no such shard: `Argument`. The bytes aren't
    /// one frame: `Wire`, `Behind`. The clip is too long for a frame: `Wire` of `Long`. The buffer
    /// is too small: `Buffer`. `Wire` of `Memory` may come instead of any but `Argument`.
    pub fn clip(&self, shard: usize, frame: &[u8], clip: &mut [u8]) -> Result<usize, Refusal>
        ensures clipped { IfOk result
            (λ count. IsClippedFrame self.now shard frame.now (take count clip.new)) }
        ensures within { IfOk result (λ count. count ≤ length clip.new) }
        ensures refused { IfErr result
            (λ refusal. ClipRefuses self.now shard frame.now (length clip.old) refusal) }
    {
        clip_frame(self.alloc, &self.points, shard, frame, clip)
    }

    /// Combines the replies of all shards to the batch of a frame, writes the frame of the combined
    /// reply to the front of the buffer, and returns the length of that. The replies are frames,
    /// one by one, in the order of the shards.
    ///
    /// The first of these that holds decides. The bytes of the batch aren't one frame: `Frame` of
    /// `Wire` or `Behind`. From the front, a reply isn't a frame: `Reply`; bytes follow the last:
    /// `Behind`. From the front, a reply isn't one to the batch: `Misfit`. The buffer is too small:
    /// `Frame` of `Buffer`. Memory may be refused instead: `Frame` of `Wire` of `Memory`, or
    /// `Reply` of `Memory` while that reply is read.
    pub fn combine(
        &self,
        frame: &[u8],
        replies: &[u8],
        answer: &mut [u8],
    ) -> Result<usize, CombineRefusal>
        ensures combined { IfOk result
            (λ count. IsCombinedFrame self.now frame.now replies.now (take count answer.new)) }
        ensures within { IfOk result (λ count. count ≤ length answer.new) }
        ensures refused { IfErr result (λ refusal. CombineRefuses self.now frame.now replies.now
            (length answer.old) refusal) }
    {
        combine_frames(self.alloc, &self.points, frame, replies, answer)
    }
}
