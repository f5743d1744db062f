//! The ranges that conflict most.
//!
//! [`HotRanges`] observes the batches that a resolver processes. For each range it counts the
//! transactions that were rejected because they read it, and those that were rejected because an
//! earlier transaction wrote it. [`HotRanges::top`] returns the ranges with the greatest counts,
//! and [`hot_lines`] and [`hot_members`] print them. The [`laws`] say what the list promises.
//!
//! In reading order, `specs/` has the conflicts of a transaction (`Conflicts`), how ranges are
//! counted (`Counts`), which of them are listed (`Top`) and the printed text (`Text`).
//! `RangeTally` and `HotRanges` say what is kept.
#![tactic(auto)]

mod conflict_counts;
mod hot_range;
mod hot_ranges;
pub mod laws;
mod lines;
mod members;
mod tally;
mod top;

pub use hot_range::{HotRange, Top};
pub use hot_ranges::HotRanges;
pub use lines::hot_lines;
pub use members::hot_members;
