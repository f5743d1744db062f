//! The exports over split points. Each writes back the pointer of the handle that it takes. No
//! clause can say what is at that pointer then. The calls of [`PointsObject`] say it of their
//! object.

ghost use Rattle.std.specs.Prelude.{◌≡◌, ◌≢◌, pos, length, take};
ghost use Rattle.serial.specs.Shards.{shards};
ghost use Rattle.shards.specs.SplitPoints.{AreSplitPoints};
ghost use Rattle.archcaraway_c.specs.Status.{refusal_status, bytes_needed};
ghost use Rattle.archcaraway_c.specs.Points.{keys_given, PointsRefuse, points_status, bad_key};
ghost use Rattle.archcaraway_c.specs.ShardFrames.{IsClippedFrame, ClipRefuses};
ghost use Rattle.archcaraway_c.specs.ShardFrames.{IsCombinedFrame, CombineRefuses};
ghost use Rattle.archcaraway_c.specs.ShardFrames.{combine_status, combine_needed, bad_shard};
ghost use Rattle.archcaraway_c.specs.declared.refusal.Refusal.{Refusal};
ghost use Rattle.archcaraway_c.specs.declared.points_refusal.PointsRefusal.{PointsRefusal};
ghost use Rattle.archcaraway_c.specs.declared.combine_refusal.CombineRefusal.{CombineRefusal};

use crate::points_handle::PointsHandle;
use crate::points_object::PointsObject;
use crate::refusal::OK;
use crate::to_heap::move_to_heap;
use std::alloc::Global;

/// Takes keys as split points, and writes their pointer, and the index of the first key at fault or
/// the number of keys.
#[unsafe(no_mangle)]
pub extern "C" fn archcaraway_export_split_points_new(
    alloc: Global,
    keys: &[u8],
    lengths: &[usize],
    bad: &mut usize,
    at: &mut *mut u8,
) -> i32
    ensures rising { result ≡ pos 0 → AreSplitPoints (keys_given keys.now lengths.now) }
    ensures refused { result ≢ pos 0 → (refusal : PointsRefusal)
        × (result ≡ points_status refusal) × (bad.new ≡ bad_key (length lengths.now) refusal)
        × PointsRefuse keys.now lengths.now refusal }
{
    *bad = lengths.len();
    match PointsObject::new(alloc, keys, lengths) {
        Ok(points) => move_to_heap(alloc, points, at),
        Err(refusal) => {
            *bad = refusal.bad_key(lengths.len());
            refusal.status()
        }
    }
}

/// Returns the number of shards.
#[unsafe(no_mangle)]
pub extern "C" fn archcaraway_export_split_points_shards(
    points: PointsHandle,
    at: &mut *mut u8,
) -> usize
    ensures count { result ≡ length (shards points.value) }
{
    let points = points.into_box();
    let count = points.shards();
    *at = Box::into_raw(points).cast();
    count
}

/// Clips the batch of a frame to a shard, and writes the frame of the clip and its length.
#[unsafe(no_mangle)]
pub extern "C" fn archcaraway_export_clip(
    points: PointsHandle,
    shard: usize,
    frame: &[u8],
    clip: &mut [u8],
    clip_length: &mut usize,
    at: &mut *mut u8,
) -> i32
    ensures clipped { result ≡ pos 0
        → IsClippedFrame points.value shard frame.now (take clip_length.new clip.new) }
    ensures refused { result ≢ pos 0 → (refusal : Refusal) × (result ≡ refusal_status refusal)
        × (clip_length.new ≡ bytes_needed refusal)
        × ClipRefuses points.value shard frame.now (length clip.old) refusal }
{
    let points = points.into_box();
    let clipped = points.clip(shard, frame, clip);
    *at = Box::into_raw(points).cast();
    match clipped {
        Ok(length) => {
            *clip_length = length;
            OK
        }
        Err(refusal) => {
            *clip_length = refusal.needed();
            refusal.status()
        }
    }
}

/// Combines the replies of all shards to the batch of a frame. Writes the frame of the combined
/// reply and its length, and the shard whose reply is refused or the number of shards.
// Two words come before the slices, as in `archcaraway_export_batch_add`.
#[unsafe(no_mangle)]
pub extern "C" fn archcaraway_export_combine(
    points: PointsHandle,
    at: &mut *mut u8,
    frame: &[u8],
    replies: &[u8],
    reply: &mut [u8],
    reply_length: &mut usize,
    bad: &mut usize,
) -> i32
    ensures combined { result ≡ pos 0
        → IsCombinedFrame points.value frame.now replies.now (take reply_length.new reply.new) }
    ensures refused { result ≢ pos 0 → (refusal : CombineRefusal)
        × (result ≡ combine_status refusal) × (reply_length.new ≡ combine_needed refusal)
        × (bad.new ≡ bad_shard (length (shards points.value)) refusal)
        × CombineRefuses points.value frame.now replies.now (length reply.old) refusal }
{
    let points = points.into_box();
    let count = points.shards();
    let combined = points.combine(frame, replies, reply);
    *at = Box::into_raw(points).cast();
    *bad = count;
    match combined {
        Ok(length) => {
            *reply_length = length;
            OK
        }
        Err(refusal) => {
            *reply_length = refusal.needed();
            *bad = refusal.bad_shard(count);
            refusal.status()
        }
    }
}

/// Frees split points.
#[unsafe(no_mangle)]
pub extern "C" fn archcaraway_export_split_points_free(points: PointsHandle) {
    drop(points.into_box());
}
