//! Compares the replies of two resolvers to the batches of one proxy.
//!
//! The answers of this resolver say which replies are expected, and the replies of another resolver
//! are recorded. [`compare`] returns how these differ, in order of versions, and
//! [`write_differences`] writes a line for each. [`check_all`] does both for all proxies.
//!
//! `specs/Difference.antt` defines differences, `specs/Text.antt` their text, and
//! `specs/Check.antt` the text about all proxies. A law of [`laws`] says when there is no
//! difference.
#![tactic(auto)]

mod all;
mod difference;
mod entries;
pub mod laws;
mod reply_match;
mod text;

pub use all::{Checked, check_all};
pub use difference::{Difference, DifferenceKind};
pub use reply_match::compare;
pub use text::write_differences;
