//! What batches add up to.

ghost use Rattle.std.specs.Prelude.{◌≡◌, ◌+◌, ◌∷◌, ◌++◌, [], List, ℕ, ℤ, OnSome, flat_map, length};
ghost use Rattle.std.specs.Prelude.{map};
ghost use Rattle.keyspace.specs.declared.batch.Batch.{Batch as BatchValue};
ghost use Rattle.keyspace.specs.declared.txn.Txn.{Txn as TxnValue};
ghost use Rattle.batches_tasks.specs.Stats.{keys_of_range, spread_of, stats_of, txn_counts_of};
ghost use Rattle.batches_tasks.specs.Stats.{versions_of};

use crate::spread::Spread;
use keys::is_single_key;
use keyspace::{Batch, RangeRef, RangesRef, TxnRef, Txns};

/// What transactions add up to.
#[derive(Clone, Copy, Debug, PartialEq, Eq)]
pub struct TxnCounts {
    /// How many request a report.
    pub marked: u64,
    /// The read ranges of each.
    pub reads: Spread,
    /// The write ranges of each.
    pub writes: Spread,
}

/// What batches add up to.
#[derive(Clone, Copy, Debug, PartialEq, Eq)]
pub struct Stats {
    /// The length of their frames.
    pub bytes: u64,
    /// The least and the greatest version, or none if there are no batches.
    pub versions: Option<(i64, i64)>,
    /// The transactions of each batch.
    pub txns: Spread,
    pub of_txns: TxnCounts,
    /// The lengths of the keys, in bytes. A range of a single key has one key, any other range two.
    pub keys: Spread,
}

impl TxnCounts {
    /// Creates the counts of no transactions.
    pub fn new() -> Self
        ensures none { result ≡ txn_counts_of [] }
    {
        TxnCounts {
            marked: 0,
            reads: Spread::new(),
            writes: Spread::new(),
        }
    }

    // Counts the transactions of a batch. Returns none if a sum wouldn't fit.
    fn add_each(&mut self, txns: &Txns) -> Option<()>
        ensures added { OnSome result ((before : List TxnValue) → self.old ≡ txn_counts_of before
            → self.new ≡ txn_counts_of (before ++ txns.now)) }
    {
        for index in 0..txns.len() {
            self.add(&txns.txn(index))?;
        }
        Some(())
    }

    fn add(&mut self, txn: &TxnRef<'_>) -> Option<()>
        ensures added { OnSome result ((before : List TxnValue) → self.old ≡ txn_counts_of before
            → self.new ≡ txn_counts_of (before ++ txn.now ∷ [])) }
    {
        if txn.marked {
            self.marked = self.marked.checked_add(1)?;
        }
        self.reads.add(txn.reads.len() as u64)?;
        self.writes.add(txn.writes.len() as u64)
    }
}

impl Stats {
    /// Creates the counts of no batches.
    pub fn new() -> Self
        ensures none { result ≡ stats_of 0 [] }
    {
        Stats {
            bytes: 0,
            versions: None,
            txns: Spread::new(),
            of_txns: TxnCounts::new(),
            keys: Spread::new(),
        }
    }

    /// Counts a batch, whose frame has this length. Returns none if a sum wouldn't fit.
    pub fn add(&mut self, length: usize, batch: &Batch) -> Option<()>
        ensures added { OnSome result ((bytes : ℕ) (before : List BatchValue)
            → self.old ≡ stats_of bytes before
            → self.new ≡ stats_of (bytes + length) (before ++ batch.now ∷ [])) }
    {
        self.bytes = self.bytes.checked_add(length as u64)?;
        self.versions = with_version(self.versions, batch.version);
        self.txns.add(batch.txns.len() as u64)?;
        self.of_txns.add_each(&batch.txns)?;
        add_keys(&mut self.keys, &batch.txns.ranges())
    }
}

// Returns the least and the greatest of some versions and one more.
fn with_version(versions: Option<(i64, i64)>, version: i64) -> Option<(i64, i64)>
    ensures versions { (before : List ℤ) → versions ≡ versions_of before
        → result ≡ versions_of (before ++ version ∷ []) }
{
    match versions {
        None => Some((version, version)),
        Some((least, greatest)) => Some((least.min(version), greatest.max(version))),
    }
}

// Counts the lengths of the keys of ranges. Returns none if a sum wouldn't fit.
fn add_keys(keys: &mut Spread, ranges: &RangesRef<'_>) -> Option<()>
    ensures added { OnSome result ((before : List ℕ) → keys.old ≡ spread_of before
        → keys.new ≡ spread_of (before ++ map length (flat_map keys_of_range ranges.now))) }
{
    for index in 0..ranges.len() {
        add_range(keys, &ranges.get(index))?;
    }
    Some(())
}

fn add_range(keys: &mut Spread, range: &RangeRef<'_>) -> Option<()>
    ensures added { OnSome result ((before : List ℕ) → keys.old ≡ spread_of before
        → keys.new ≡ spread_of (before ++ map length (keys_of_range range.now))) }
{
    keys.add(range.begin().len() as u64)?;
    if is_single_key(range.begin(), range.end()) {
        return Some(());
    }
    keys.add(range.end().len() as u64)
}
