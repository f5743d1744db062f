//! Tests of the conflict set and of the resolver, by their public calls alone.
//!
//! `set` resolves the worked rows of a conflict set, `cores` and `gate` those of a core, and
//! `lanes` those of lanes. `calls_without_waiting` makes each call over lanes where nothing can
//! wait. Further rows, random batches beside a plain scan of all committed writes, and printed
//! texts are tests of the Cargo edition (`cargo/tests`).
//!
//! The tests named for it, as `core_stops_at_one_growth_refused`, pass whichever one growth is
//! refused; `.ci/refused-memory` refuses each in turn. Those of `rows_over_lanes` play the rows of
//! `cores` over lanes of one. `batches_equal` has two tests whose allocations `.ci/refused-memory`
//! counts.
#![tactic(auto)]

#[cfg(test)]
mod batches_equal;
#[cfg(test)]
mod calls_without_waiting;
#[cfg(test)]
mod chained;
#[cfg(test)]
mod cores;
#[cfg(test)]
mod gate;
#[cfg(test)]
mod lanes;
#[cfg(test)]
mod made;
#[cfg(test)]
mod rows;
#[cfg(test)]
mod rows_over_lanes;
#[cfg(test)]
mod service;
#[cfg(test)]
mod set;
#[cfg(test)]
mod set_stops;
