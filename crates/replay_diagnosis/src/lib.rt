//! Why a replay failed, or held all its batches, and what to do.
//!
//! [`examine`] reads a file of a failed run once more. It returns the [`FileBatches`] of a file
//! that contains nothing else, or a [`Finding`]: what is at the [`Position`] where the first frame
//! of a batch was expected and is none. [`write_remedy`] writes the line about a finding, and
//! [`write_run_remedy`] that about a [`RunFinding`], which is of no single file. Both lines begin
//! with two spaces, so that they read as a part of the message before them. [`examine_unbegun`]
//! reads a file of a run that didn't fail, unless one of its batches begins a chain.
//!
//! `specs/` says, in reading order, which versions batches follow (`Following`), what a file
//! contains (`Content`), and the text of the lines (`Remedy`). A law of [`laws`] says that each
//! line is one line.
#![tactic(auto)]

mod batches;
mod classification;
mod examination;
pub mod laws;
mod name;
mod position;
mod remedy;
mod run_findings;
mod run_remedy;
mod unbegun;

pub use batches::FileBatches;
pub use examination::examine;
pub use position::Position;
pub use remedy::write_remedy;
pub use run_findings::{Finding, RunFinding};
pub use run_remedy::write_run_remedy;
pub use unbegun::examine_unbegun;
