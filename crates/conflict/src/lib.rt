//! Verdicts and reports of a batch, over the step map that remembers committed writes.
//!
//! [`ConflictSet::resolve`] judges a batch after all writes that the set remembers, and remembers
//! the writes that the batch commits. If a batch doesn't fit the limit, `resolve` stops for good,
//! and [`ConflictSet::try_resolve`] refuses it. `detect` has all steps of a batch, in order, as
//! `ConflictBatch::detectConflicts` of `SkipList.cpp` has them:
//!
//! 1. `history`: a transaction is too old, or in conflict with a remembered write. `lookup` lists
//!    the read ranges that the step map is asked for.
//! 2. `in_batch`: in order, a transaction is in conflict with an earlier one of the batch. A batch
//!    knows which gaps between its keys each of its ranges covers, and `gaps` keeps those that are
//!    written.
//! 3. `writes`: the committed ranges are united (`union`), and written if they fit the limit.
//! 4. The sweep of the step map continues.
//!
//! `laws` ties these parts to the reference definitions. A set that starts at a version has one
//! write of every key, by `unknown`, instead of the writes before it.
//!
//! The layer above may use the contracts of [`ConflictSet`], which see it as its window, the
//! greatest version resolved, its step map and its stop, and the laws of [`laws`].
#![tactic(auto)]

mod conflict_set;
mod detect;
mod error;
mod gaps;
mod history;
mod in_batch;
pub mod laws;
mod lookup;
mod union;
mod unknown;
mod when_full;
mod writes;

pub use conflict_set::ConflictSet;
pub use error::SetStop;
pub use limits::MAX_WINDOW;
pub use when_full::WhenFull;
