//! Why a transaction conflicts: for each read range in conflict, the committed write that it
//! conflicts with.
//!
//! A [`History`] keeps the batches of a chain that may still explain a conflict, with their
//! replies. [`History::explain`] returns the newest write that a read range of the last batch
//! conflicts with, its origin, and the number of further ones. The [`laws`] say that it has an
//! explanation exactly if the reference resolver finds the read range in conflict.
//!
//! In reading order, `specs/` has the writes of a chain (`Written`), which of them explain a
//! conflict (`Explains`), and what a history keeps (`History`).
#![tactic(auto)]

mod explanation;
mod history;
pub mod laws;
mod processed;
mod question;
mod write_search;
mod writer_index;

pub use explanation::{Explanation, WrittenRef};
pub use history::History;
pub use processed::ProcessedBatch;
