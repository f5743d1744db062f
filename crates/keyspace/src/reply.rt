//! Replies: a verdict on each transaction of a batch, with the places that it asked for.

ghost use Rattle.std.specs.Prelude.{◌≡◌, ◌≢◌, ◌≤◌, ◌≤ℤ◌, [], length, pos, IfOk};
ghost use Rattle.keyspace.specs.declared.batch.TheConstants.{MAX_TXNS};
ghost use Rattle.keyspace.specs.Places.{ArePlaces};
ghost use Rattle.keyspace.specs.declared.reply.Verdict.{Verdict};
ghost use Rattle.keyspace.specs.declared.reply.Verdict.TheVariants.{Conflict};

use crate::sequence::Sequence;
use std::alloc::{AllocError, Global};
use std::marker::Model;

/// The verdict on a transaction: `ConflictBatch::TransactionCommitResult` of FoundationDB 7.1.
#[derive(Clone, Copy, Debug, PartialEq, Eq, Hash)]
pub enum Verdict {
    /// A read range overlaps a write that the transaction's snapshot doesn't include.
    Conflict,
    /// The transaction has a read range, and its snapshot is older than the window.
    TooOld,
    /// The transaction may commit. Its writes count for the transactions after it.
    Committed,
}

/// The places of a report: indices of read ranges in their transaction, strictly increasing, each
/// below [`MAX_RANGES`](crate::MAX_RANGES).
#[derive(Debug, Drop)]
pub struct Places {
    items: Vec<u16>,
}

impl Model for Places {
    ghost use Rattle.std.specs.Prelude.{List, ℕ};
    ghost use Rattle.keyspace.specs.Places.{ArePlaces};

    ghost Value = { List ℕ };

    ghost view = { λ p. p.items.items };

    ghost invariant = { λ p. ArePlaces p.items.items };
}

impl Places {
    /// Creates a list of places, without copying them. That they increase is this project's own
    /// form of a report.
    pub fn new(items: Vec<u16>) -> Self
        requires places { ArePlaces items.items }
        ensures places { result ≡ items.items }
    {
        Places { items }
    }

    /// Returns the places as a slice.
    pub fn as_slice(&self) -> &[u16]
        ensures places { result.now ≡ self.now }
        ensures limits { ArePlaces self.now }
    {
        &self.items
    }

    /// Returns the vector of the places, without copying them.
    pub fn into_vec(self) -> Vec<u16>
        ensures items { result.items ≡ self }
    {
        self.items
    }
}

/// The verdict on one transaction, and its report.
#[derive(Debug, Drop)]
pub struct Entry {
    pub verdict: Verdict,
    /// The places of the report. Empty unless the verdict is `Conflict`.
    pub places: Places,
    ghost only_conflict: { verdict ≢ Conflict → places ≡ [] },
}

impl Entry {
    /// Creates the entry of a transaction. Only `Conflict` may have places.
    pub fn new(verdict: Verdict, places: Places) -> Self
        requires only_conflict { verdict ≢ Verdict.Conflict → places ≡ [] }
        ensures verdict { result.verdict ≡ verdict }
        ensures places { result.places ≡ places }
    {
        Entry { verdict, places }
    }

    /// Copies the entry, or returns an error if memory is refused.
    pub fn copy(&self, alloc: Global) -> Result<Self, AllocError>
        ensures equal { IfOk result (λ entry. entry ≡ self.now) }
    {
        let items = Vec::from_slice(alloc, self.places.as_slice())?;
        Ok(Entry {
            verdict: self.verdict,
            places: Places::new(items),
        })
    }
}

/// The reply to a batch: `ResolveTransactionBatchReply` of FoundationDB 7.1.
#[derive(Debug, Drop)]
pub struct Reply {
    /// The version of the batch, 0 or more.
    pub version: i64,
    /// One entry per transaction, in the order of the batch; at most [`MAX_TXNS`](crate::MAX_TXNS).
    pub entries: Sequence<Entry>,
    ghost natural: { pos 0 ≤ℤ version },
    ghost few: { length entries ≤ MAX_TXNS },
}

impl Reply {
    /// Creates the reply to the batch of this version, with one entry per transaction.
    pub fn new(version: i64, entries: Sequence<Entry>) -> Self
        requires natural { pos 0 ≤ℤ version }
        requires few { length entries ≤ MAX_TXNS }
        ensures version { result.version ≡ version }
        ensures entries { result.entries ≡ entries }
    {
        Reply { version, entries }
    }

    /// Copies the reply, or returns an error if memory is refused.
    pub fn copy(&self, alloc: Global) -> Result<Self, AllocError>
        ensures equal { IfOk result (λ reply. reply ≡ self.now) }
    {
        let mut entries = Vec::with_capacity(alloc, self.entries.len())?;
        for entry in self.entries.as_slice() {
            entries.push(entry.copy(alloc)?)?;
        }
        Ok(Reply {
            version: self.version,
            entries: Sequence::new(entries),
        })
    }
}
