//! The step function from keys to versions that remembers committed writes.
//!
//! A conflict set asks whether it exceeds a snapshot at some key of a read range, and writes into
//! it the ranges that a batch commits. It keeps boundaries, each with the version from its key on,
//! up to the next one. Below the edge a version has no effect. A sweep removes the boundaries
//! without an effect at or above it, some at a time. There are never more boundaries than the
//! limit: a write that would not fit is refused before anything is written. If many ranges are
//! asked for at once, a filter answers for most single keys that they weren't written lately,
//! without a look at the boundaries.
//!
//! The layer above may use the contracts of [`StepMap`], which see the list of its boundaries, its
//! edge, its limit, the lengths that it is ready for and the round of the sweep under way. It may
//! also use the laws of [`laws`], which relate these to lists of writes. No contract shows how the
//! boundaries are kept.
#![tactic(auto)]

mod error;
mod filter;
pub mod laws;
mod step_map;

pub use boundaries::{KeyLengths, QueryList, RangeQuery};
pub use error::StepError;
pub use filter::{Filter, MAX_CELLS};
pub use limits::MAX_LIMIT;
pub use step_map::{StepMap, SweepEnd};
