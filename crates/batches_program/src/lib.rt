//! The program `batches` without its `main`.
//!
//! [`run`] reads the command line (`batches_arguments`), opens the files that it names, and does
//! the task that it asks for over their streams (`batches_tasks`).
#![tactic(auto)]

mod conversion;
mod jobs;
mod opening;
mod program;
mod report_page;

pub use program::run;
