//! Adds up batches and the replies to them, and makes a page of the sums. It shows verdicts over
//! versions, snapshots that were too old, sizes of batches, and read ranges that conflict most.
//!
//! [`Tally`] takes replies, and then batches. The other calls count what it has, and [`page_of`]
//! prints it.
#![tactic(auto)]

mod ages;
mod bins;
mod error;
mod heat;
pub mod laws;
mod left;
mod names;
mod page;
mod plots;
mod row;
mod share;
mod style;
mod tables;
mod tally;
mod top;
mod totals;
mod txn_tally;

pub use ages::covered;
pub use bins::{Bin, bins_of};
pub use error::ReportError;
pub use heat::Heat;
pub use left::Left;
pub use page::{ReportInputs, page_of};
pub use row::TxnRow;
pub use share::share_of;
pub use tally::Tally;
pub use top::{Hot, hottest};
pub use totals::{Totals, batches_of_size, totals_between};
pub use txn_tally::TxnTally;
