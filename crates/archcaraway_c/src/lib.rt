//! The conflict set and the resolver over values for C.
//!
//! C holds an object of this crate by a handle of one pointer, [`SetHandle`], [`CoreHandle`],
//! [`BatchHandle`] or [`PointsHandle`]. An export takes the handle by value, works on its
//! object, and writes its pointer back. `library/archcaraway.c` hides that and tests for null;
//! `include/archcaraway.h` says what C has to promise.
//!
//! The objects are plain values: [`SetObject`] is a conflict set that takes a batch as a frame and
//! writes the reply as a frame; [`CoreObject`] is a [`resolver::Core`] with the same frames. A
//! [`BatchObject`] has transactions that come without a frame, and both take it too. A
//! [`PointsObject`] clips frames of batches to shards, and combines frames of replies. Every
//! refusal is a [`Refusal`], a [`PointsRefusal`] or a [`CombineRefusal`], and its number is what C
//! sees.
#![tactic(auto)]

mod appended_tables;
mod batch_exports;
mod batch_frame;
mod batch_handle;
mod batch_object;
mod batch_tables;
mod bound;
mod clip_frame;
mod combine_frames;
mod combine_refusal;
mod core_exports;
mod core_handle;
mod core_object;
mod given;
mod given_keys;
mod given_range;
mod judge_exports;
mod key_span;
mod numbers;
mod points_handle;
mod points_object;
mod points_refusal;
mod refusal;
mod reply_frame;
mod set_exports;
mod set_handle;
mod set_object;
mod shard_exports;
mod start_exports;
mod stats_exports;
mod to_heap;
mod trim_exports;
mod waiting_answers;

pub use batch_handle::BatchHandle;
pub use batch_object::BatchObject;
pub use combine_refusal::CombineRefusal;
pub use core_handle::CoreHandle;
pub use core_object::CoreObject;
pub use given::Given;
pub use key_span::KeySpan;
pub use points_handle::PointsHandle;
pub use points_object::PointsObject;
pub use points_refusal::PointsRefusal;
pub use refusal::Refusal;
pub use set_handle::SetHandle;
pub use set_object::SetObject;
