//! Tests of the wire form, by the public calls of `keyspace` and `wire` alone: the vectors of
//! `docs/WIRE.md` with the fault that each other frame is refused for, and readers that fail or end
//! after any number of bytes. `ranks` has the ranks of a batch at a growth that is refused. Random
//! and largest values, keys, ranges, upgrades and printed texts are tests of the Cargo edition
//! (`cargo/tests`).
#![tactic(auto)]

#[cfg(test)]
mod batches;
#[cfg(test)]
mod frames;
#[cfg(test)]
mod long_batches;
#[cfg(test)]
mod ranks;
#[cfg(test)]
mod readers;
#[cfg(test)]
mod replies;
#[cfg(test)]
mod rows;
#[cfg(test)]
mod texts;
