//! The command line of the program `batches`.
//!
//! [`read_words`] reads the arguments. It returns a [`Job`], or an [`ArgumentsStop`] that says why
//! nothing is done. A [`JobTask`] and a [`Kind`] say what a conversion does, and with what.
#![tactic(auto)]

mod command;
mod job;
mod kind;
mod task;
mod words;

pub use job::{Job, JobLine, STANDARD_INPUT};
pub use kind::Kind;
pub use task::JobTask;
pub use words::{ArgumentsStop, read_words};
