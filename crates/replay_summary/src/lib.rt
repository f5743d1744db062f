//! The summary of a run of the program `replay`: how many batches were answered, the verdicts on
//! their transactions, and the answers that were repeats, per proxy and in all.
//!
//! [`Counted`] is an answer with its verdicts counted. [`summarize`] adds up the answers to one
//! proxy, [`summarize_all`] those to each, and [`total`] the summaries of all proxies.
//! [`Occupancy`] is how full the resolver was. [`summary_text`] is the text, as words or as JSON.
//!
//! `specs/Counted.antt`, `specs/Summary.antt`, `specs/Occupancy.antt` and `specs/Text.antt` define
//! what these are.
#![tactic(auto)]

mod all;
mod counted;
mod counts;
mod error;
mod occupancy;
mod one;
mod summary;
mod text;
mod versions;

pub use all::summarize_all;
pub use counted::{Counted, HasCounted, Outcome};
pub use counts::Counts;
pub use error::SummaryError;
pub use occupancy::Occupancy;
pub use one::summarize;
pub use summary::{Summary, total};
pub use text::{SummaryForm, summary_text};
pub use versions::Versions;
