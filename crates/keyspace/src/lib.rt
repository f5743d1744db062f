//! Transactions, batches and replies as plain data, over the keys and ranges of `keys`. Each type
//! keeps its limits.
//!
//! `specs/` holds the reference definitions, in reading order: all that has to be believed about
//! verdicts and about the chain of versions. `specs/storage` says how the transactions of a batch
//! are kept, and what order by version is. The contracts of the crates above cite them. A crate
//! above may use the contracts of the types here and the laws of [`laws`].
//!
//! [`Txn::checked`] and [`Batch::checked`] take values from outside, and return a [`LimitError`] if
//! one is beyond a limit. Callers that know their values to be within the limits have [`Txn::new`]
//! and [`Batch::new`].
//!
//! A batch keeps its transactions as [`Txns`]: one buffer with the bytes of all keys, a [`Span`]
//! per range, and a [`Row`] per transaction. It lends them as [`TxnRef`], [`RangesRef`] and
//! [`RangeRef`], so no key is copied once it is read. Their ranges are ranked ([`GapRuns`]) when a
//! batch is read, and not when batches are resolved in sequence.
//!
//! [`sort_by_version`] sorts [`Versioned`] items, such as replies.
#![tactic(auto)]

mod answer;
mod batch;
mod error;
pub mod laws;
mod ranges_ref;
mod reply;
mod row;
mod sequence;
mod span;
mod tables;
mod txn;
mod txn_ref;
mod txns;
mod unordered;
mod version_order;
mod write_order;

pub use answer::Answer;
pub use batch::{Batch, MAX_TXNS};
pub use error::LimitError;
pub use keys::{
    GapRuns, Key, KeyError, MAX_KEY_LENGTH, Range, RangeList, RangeRef, common_prefix_len, key_head,
};
pub use ranges_ref::RangesRef;
pub use reply::{Entry, Places, Reply, Verdict};
pub use row::Row;
pub use sequence::Sequence;
pub use span::{Span, bytes_at};
pub use tables::Tables;
pub use txn::{MAX_RANGES, Txn};
pub use txn_ref::TxnRef;
pub use txns::Txns;
pub use unordered::UnorderedBatch;
pub use version_order::{Versioned, sort_by_version};

/// The default window, in versions: how far back the resolver remembers committed writes. It is
/// `MAX_WRITE_TRANSACTION_LIFE_VERSIONS` of FoundationDB 7.1, about five seconds of commit
/// versions.
pub const WINDOW: i64 = 5_000_000;

const _: () = prove!(WINDOW == 5_000_000);
