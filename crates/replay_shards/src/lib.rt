//! What several resolvers of `replay` need over values: the clips that a worker sends to one of
//! them, and the answers of all of them as one.
//!
//! [`Clips`] are the batches of a file, clipped to a shard: a stream that a worker sends to the
//! resolver of that shard. No shard waits for another, so shards may answer a proxy in different
//! orders. [`combine_answered`] combines what all of them have answered to a proxy: by version,
//! never by position. Split points are read from a file ([`read_points`]) or chosen by the first
//! batches ([`points_of_sample`]).
//!
//! `specs/` says, in reading order, which split points a file has (`Points`) and by which batches
//! they are chosen (`Sampling`), what a stream of clips gives (`Clips`), what is kept for reports
//! (`Notes`), the answer of all shards to one batch (`Answers`), those to one proxy (`Merging`,
//! `Answered`), and what failed of all shards together (`Failures`).
#![tactic(auto)]

mod answer;
mod answer_match;
mod answered;
mod clips;
mod entries;
mod failures;
pub mod laws;
mod merged_answers;
mod note;
mod noted_reply;
mod own_shard;
mod points;
mod sampled_points;

pub use answered::{Answered, combine_answered};
pub use clips::{Clips, clips_each};
pub use failures::{ShardStop, failure_together, first_stop};
pub use note::Note;
pub use points::{PointsError, fail_to_read_points, read_points};
pub use sampled_points::{SAMPLE, points_of_sample};
