//! The two stores of the version chain: batches that wait for their previous version, and replies
//! that may be asked for again.
//!
//! The layer above may use the contracts of [`Gate`] and [`Replies`]. Those of `Gate` see the list
//! of the held batches, each with its proxy, in order of arrival. Those of `Replies` see a finite
//! map from proxy and version to a reply. The layer above decides which batch may be processed and
//! what a reply says, and owns the resolver's version.
#![tactic(auto)]

mod error;
mod gate;
mod replies;

pub use error::ChainError;
pub use gate::{Gate, MAX_HELD};
pub use replies::Replies;
