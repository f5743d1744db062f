//! What is done with opened files of batch frames: their batches are resolved, and the answers
//! printed, explained, compared with recorded replies, or summarized.
//!
//! There is a function per task, each over any readers and streams. [`replay_over`] prints the
//! answers, [`replay_and_summarize_over`] writes their summary beside them, [`explain_over`]
//! explains the rejections too, [`check_over`] compares the answers with replies, and
//! [`summarize_over`] prints their summary alone. `sharded` has these with several resolvers, but
//! for the explanations.
//!
//! What is printed is defined by `IsReplayed`, in `specs/Replayed.antt`, and the definitions after
//! it.
#![tactic(auto)]

mod check;
mod explain;
mod met;
mod reached;
mod replay;
mod sharded;
mod summary;

pub use check::{
    CheckReport, RepliesError, check_over, fail_to_read_replies, print_check, read_replies,
};
pub use explain::{explain_lines, explain_over, print_explained};
pub use met::{Ended, Met};
pub use replay::{replay_and_summarize_over, replay_over};
pub use sharded::{
    check_sharded_over, replay_and_summarize_sharded_over, replay_sharded_over,
    summarize_sharded_over,
};
pub use summary::{SummaryRequest, SummaryWriter, print_summary, summarize_over};
