//! Draws the batches of one chain to measure a resolver with, and writes their frames.
//!
//! [`run`] is the program `workload` over any words and streams, and [`run_in`] takes the words
//! from an environment. `words` reads the command line, and has `clap` answer `--help` and
//! `--version`. [`write_batches`] draws the batches by the numbers of [`Random`], as their
//! [`Shape`] wants, and writes their frames; `chain` settles their versions, and `ranges` their
//! ranges.
#![tactic(auto)]

mod chain;
mod command;
mod environment;
mod fault;
mod generate;
pub mod laws;
mod plan;
mod program;
mod random;
mod ranges;
mod shape;
mod words;

pub use environment::run_in;
pub use fault::{Fault, fail};
pub use generate::{draw_batch, write_batches};
pub use plan::{MAX_BATCHES, MAX_TRANSACTIONS, Plan};
pub use program::run;
pub use random::Random;
pub use ranges::draw_range;
pub use shape::Shape;
pub use words::{USAGE, read_words};
