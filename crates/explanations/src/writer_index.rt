//! Which transactions of a batch may have written a key.

ghost use Rattle.std.specs.Prelude.{◌≡◌, ◌<◌, ◌≤◌, ◌∷◌, [], false, length, List, Some, slice_get};
ghost use Rattle.std.specs.Prelude.{IfOk, OnOk};
ghost use Rattle.keys.specs.Hash.{IsHashOf};
ghost use Rattle.keys.specs.declared.range.Range.{Range};
ghost use Rattle.keyspace.specs.declared.batch.TheConstants.{MAX_TXNS};
ghost use Rattle.keyspace.specs.declared.reply.Entry.{Entry as EntryValue};
ghost use Rattle.keyspace.specs.declared.txn.Txn.{Txn};
ghost use Rattle.keyspace.specs.Writes.{counted_ranges};
ghost use Rattle.explanations.specs.Writers.{AddsWrites, IsIndexOf, IsNextWriter};

use keyspace::{Entry, Txns, Verdict};
use std::alloc::{AllocError, Global};

// A committed transaction that wrote a single key.
#[derive(Clone, Copy, Debug, PartialEq, Eq, PartialOrd, Ord)]
pub struct Writer {
    // the hash of the key
    pub hash: u32,
    // the index of the transaction in the batch
    pub txn: u32,
}

// Finds the transactions of a batch that may have written a key, by its hash. It has none of the
// keys: it takes 8 bytes per key.
#[derive(Debug, Drop)]
pub struct WriterIndex {
    // by hash, and then by transaction
    pub writers: Vec<Writer>,
    // a committed transaction wrote a range that isn't a single key, which the index doesn't have
    pub has_ranges: bool,
}

impl WriterIndex {
    // Makes the index of the transactions of a batch, whose reply has these entries.
    pub fn new(alloc: Global, txns: &Txns, entries: &[Entry]) -> Result<Self, AllocError>
        requires few { length txns.now ≤ MAX_TXNS }
        requires entries { length entries.now ≡ length txns.now }
        ensures index { IfOk result (λ index. IsIndexOf index txns.now entries.now) }
    {
        let mut index = WriterIndex {
            writers: Vec::with_capacity(alloc, txns.write_order().len())?,
            has_ranges: false,
        };
        for txn in 0..txns.len() {
            index.add(txns, txn, entries[txn].verdict)?;
        }
        index.writers.sort_unstable();
        Ok(index)
    }

    // Adds a transaction with this verdict. The writers are then no longer in order.
    fn add(&mut self, txns: &Txns, txn: usize, verdict: Verdict) -> Result<(), AllocError>
        requires few { length txns.now ≤ MAX_TXNS }
        requires within { txn < length txns.now }
        ensures adds { OnOk result ((t : Txn) → slice_get txns.now txn ≡ Some t
            → AddsWrites self.old self.new txn (counted_ranges verdict t.writes)) }
    {
        match verdict {
            Verdict::Committed => self.add_writes(txns, txn),
            Verdict::TooOld | Verdict::Conflict => Ok(()),
        }
    }

    fn add_writes(&mut self, txns: &Txns, txn: usize) -> Result<(), AllocError>
        requires few { length txns.now ≤ MAX_TXNS }
        requires within { txn < length txns.now }
        ensures adds { OnOk result ((t : Txn) → slice_get txns.now txn ≡ Some t
            → AddsWrites self.old self.new txn t.writes) }
    {
        let ranges = txns.txn(txn).writes;
        let first = txns.first_write_index(txn) as usize;
        for index in 0..ranges.len() {
            self.add_range(txns.hash(first + index), txn)?;
        }
        Ok(())
    }

    // Adds a range that the transaction wrote, by its hash.
    fn add_range(&mut self, hash: Option<u32>, txn: usize) -> Result<(), AllocError>
        requires few { txn ≤ MAX_TXNS }
        ensures adds { OnOk result ((range : Range) → IsHashOf range hash
            → AddsWrites self.old self.new txn (range ∷ [])) }
    {
        match hash {
            Some(hash) => {
                let txn = txn as u32;
                Ok(self.writers.push(Writer { hash, txn })?)
            }
            None => {
                self.has_ranges = true;
                Ok(())
            }
        }
    }

    // Returns the next transaction, from an index on, that may have written the key with this hash.
    pub fn next(&self, hash: u32, from: usize) -> Option<usize>
        requires few { from ≤ MAX_TXNS }
        ensures next { (ts : List Txn) (es : List EntryValue) → IsIndexOf self.now ts es
            → self.now.has_ranges ≡ false → (range : Range) → IsHashOf range (Some hash)
            → IsNextWriter ts es range from result }
    {
        let sought = Writer {
            hash,
            txn: from as u32,
        };
        match self.writers.binary_search(&sought) {
            Ok(_) => Some(from),
            Err(index) => {
                let writer = self.writers.get(index)?;
                if writer.hash == hash {
                    Some(writer.txn as usize)
                } else {
                    None
                }
            }
        }
    }
}
