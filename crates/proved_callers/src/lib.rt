//! How the crates are called: one short function for each, whose contract shows the clauses of the
//! crate used.
//!
//! [`keep_two`] places records in an arena. [`there_and_back`] encodes a batch and decodes it
//! again. [`through`] sends an item along a lane. [`judge_two`] resolves two batches with a
//! conflict set, and [`serve_two`] serves two proxies with a resolver. Nothing depends on this
//! crate.
#![tactic(auto)]

mod arena_use;
mod conflict_use;
mod lane_use;
pub mod laws;
mod served_proxies;
mod wire_use;

pub use arena_use::keep_two;
pub use conflict_use::judge_two;
pub use lane_use::through;
pub use served_proxies::{Served, serve_two, transfer_two};
pub use wire_use::there_and_back;
