//! Tests of the structures below the resolver, through their public calls: the arena, the filter,
//! the step map, the stores of the version chain, and the lane.
//!
//! These are the worked rows, and tests of memory that is refused, as `one_growth_refused`: they
//! pass whichever one growth is refused, and `.ci/refused-memory` refuses each in turn. Values by
//! hand, printed texts, and random calls beside a plain structure are tests of the Cargo edition
//! (`cargo/tests`).
#![tactic(auto)]

#[cfg(test)]
mod arena_calls;
#[cfg(test)]
mod arena_memory;
#[cfg(test)]
mod chain_calls;
#[cfg(test)]
mod filter_calls;
#[cfg(test)]
mod lane_calls;
#[cfg(test)]
mod lane_threads;
#[cfg(test)]
mod step_calls;
#[cfg(test)]
mod written;
