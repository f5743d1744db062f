//! Keys and half-open ranges of keys.
//!
//! A [`Key`] is a byte string of limited length, a [`Range`] has two of them, and a [`RangeRef`]
//! borrows these. Keys are compared byte by byte, a proper prefix first.
//!
//! [`GapRuns`] orders ranges by their begins and says which of the gaps between these each of them
//! covers, wherever the ranges lie ([`RangeList`]).
//!
//! [`key_head`] and [`common_prefix_len`] distinguish keys quickly: by the first eight bytes, and
//! by the length of the common prefix. [`key_hash`], [`RangeRef::single_hash`] and [`HashedRange`]
//! are for a filter of keys.
//!
//! `specs/` defines, in reading order, keys and their order (`Key`), heads of keys (`Head`), and
//! when a range holds a key and when two ranges meet (`Range`). `Laws` ties these together, and the
//! functions of [`laws`] prove it. The crates above may use the contracts of the types and
//! functions here, and these laws.
#![tactic(auto)]

mod bytes;
mod error;
mod gap_runs;
mod hashed_range;
mod key;
mod key_hashes;
pub mod laws;
mod prefix;
mod range;
mod range_list;
mod range_ref;
mod single_key;

pub use error::KeyError;
pub use gap_runs::{GapRuns, MAX_RANKED};
pub use hashed_range::HashedRange;
pub use key::{Key, MAX_KEY_LENGTH};
pub use key_hashes::{key_hash, single_hashes};
pub use prefix::{common_prefix_len, head_after, key_head, same_bytes};
pub use range::Range;
pub use range_list::RangeList;
pub use range_ref::RangeRef;
pub use single_key::{MAX_SINGLE_KEY_LENGTH, is_single_key};
