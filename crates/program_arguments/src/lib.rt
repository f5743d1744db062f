//! The arguments of a program's process, as text.
//!
//! The programs read them with [`read_arguments`]. What they mean, each program's own crates say.
#![tactic(auto)]

mod environment;

pub use environment::{ArgumentsError, read_arguments};
