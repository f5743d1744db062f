//! Several resolvers by key range: which part of a batch each of them gets, and their replies as
//! one.
//!
//! [`SplitPoints`] split all keys into shards, one per resolver; [`balanced`] picks them from a
//! sample. [`clip_all`] makes the batch of each shard, [`clip_in_place`] that of one shard in the
//! buffer of the batch, and [`combine`] the reply of all shards together. The laws of [`laws`] say
//! what that gives a database: the transactions that all shards commit are serializable. The crate
//! has no threads and no state.
//!
//! In reading order, `specs/` has split points and which ones are balanced, the part of a batch
//! that a shard gets (`Clips`), and the combined reply (`Combined`).
#![tactic(auto)]

mod balanced_points;
mod clip_calls;
mod clipped;
mod combined_replies;
mod copied_clips;
mod error;
mod headed_key;
mod in_place;
mod kept_clips;
pub mod laws;
mod reach;
mod read_indices;
mod read_numbers;
mod shard_bounds;
mod shard_ends;
mod shard_reply;
mod shard_tables;
mod split_points;

pub use balanced_points::balanced;
pub use clip_calls::{clip, clip_all};
pub use clipped::Clipped;
pub use combined_replies::{combine, lesser};
pub use error::{BalanceError, CombineError, Misfit, SplitPointsError};
pub use in_place::clip_in_place;
pub use read_indices::ReadIndices;
pub use read_numbers::number_all;
pub use shard_reply::ShardReply;
pub use split_points::{MAX_SPLIT_POINTS, SplitPoints};
