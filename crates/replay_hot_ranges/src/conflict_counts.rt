//! The conflicts of the batch that a history has added last, counted.

ghost use Rattle.std.specs.Prelude.{◌≡◌, ◌<◌, ◌++◌, ◌∷◌, [], List, Some, length, OnOk, slice_get};
ghost use Rattle.std.specs.Prelude.{IfSome};
ghost use Rattle.keys.specs.declared.range.Range.{Range};
ghost use Rattle.keyspace.specs.declared.batch.Batch.{Batch as BatchValue};
ghost use Rattle.keyspace.specs.declared.txn.Txn.{Txn};
ghost use Rattle.explanations.specs.Explains.{explaining_newest, newest_of};
ghost use Rattle.explanations.specs.Written.{newest_write};
ghost use Rattle.replay_hot_ranges.specs.Conflicts.{InConflict, conflicts_of, in_conflict};
ghost use Rattle.replay_hot_ranges.specs.Conflicts.{rejected_by, rejected_from};

use crate::tally::RangeTally;
use explanations::{History, WrittenRef};
use keys::RangeRef;
use keyspace::{Batch, Entry, RangesRef, Verdict};
use std::alloc::{AllocError, Global};

/// The counts of the read ranges in conflict, and of the written ranges.
#[derive(Debug, Drop)]
pub struct Tallies {
    alloc: Global,
    // the number of the transaction that was counted last
    txn_count: usize,
    pub reads: RangeTally,
    pub writes: RangeTally,
}

impl Tallies {
    ghost use Rattle.replay_hot_ranges.specs.RangeTally.{AreTallies, AreTalliesWith};

    /// Creates tallies of no transaction, without taking memory.
    pub fn new(alloc: Global) -> Self
        ensures none { AreTallies [] result }
    {
        Tallies {
            alloc,
            txn_count: 0,
            reads: RangeTally::new(alloc),
            writes: RangeTally::new(alloc),
        }
    }

    /// Counts the conflicts of the batch that the history has added last, whose reply has these
    /// entries. An error is refused memory, or a count beyond 64 bits.
    pub fn add_batch(&mut self, history: &History, entries: &[Entry]) -> Result<(), AllocError>
        requires entries { IfSome (newest_of history.now.kept) (λ batch.
            length entries.now ≡ length batch.txns) }
        ensures added { OnOk result ((batch : BatchValue) (txns : List (List InConflict))
            → newest_of history.now.kept ≡ Some batch → AreTallies txns self.old
            → AreTallies (txns ++ rejected_from history.now.kept batch 0 batch.txns entries.now)
            self.new) }
    {
        match history.newest() {
            Some(batch) => self.add_txns(history, batch, entries),
            None => Ok(()),
        }
    }

    // Counts the conflicts of all transactions of the batch.
    fn add_txns(
        &mut self,
        history: &History,
        batch: &Batch,
        entries: &[Entry],
    ) -> Result<(), AllocError>
        requires newest { newest_of history.now.kept ≡ Some batch.now }
        requires entries { length entries.now ≡ length batch.now.txns }
        ensures added { OnOk result ((txns : List (List InConflict)) → AreTallies txns self.old
            → AreTallies (txns ++ rejected_from history.now.kept batch.now 0 batch.now.txns
            entries.now) self.new) }
    {
        for txn in 0..entries.len() {
            self.add_txn(history, batch, txn, entries[txn].verdict)?;
        }
        Ok(())
    }

    // Counts the conflicts of the transaction at the index, if it was rejected as a conflict.
    fn add_txn(
        &mut self,
        history: &History,
        batch: &Batch,
        txn: usize,
        verdict: Verdict,
    ) -> Result<(), AllocError>
        requires newest { newest_of history.now.kept ≡ Some batch.now }
        requires within { txn < length batch.now.txns }
        ensures added { OnOk result ((t : Txn) (txns : List (List InConflict))
            → slice_get batch.now.txns txn ≡ Some t → AreTallies txns self.old → AreTallies (txns
            ++ rejected_by verdict (conflicts_of history.now.kept batch.now txn t)) self.new) }
    {
        match verdict {
            Verdict::Committed => Ok(()),
            Verdict::TooOld => Ok(()),
            Verdict::Conflict => {
                let transaction = batch.txns.txn(txn);
                self.begin()?;
                self.add_reads(history, batch, txn, &transaction.reads)
            }
        }
    }

    // Begins a transaction, without conflicts so far.
    fn begin(&mut self) -> Result<(), AllocError>
        ensures begun { OnOk result ((txns : List (List InConflict)) → AreTallies txns self.old
            → AreTalliesWith txns [] self.new) }
    {
        match self.txn_count.checked_add(1) {
            Some(txn_count) => {
                self.txn_count = txn_count;
                Ok(())
            }
            None => Err(AllocError),
        }
    }

    // Counts the conflicts of the transaction at the index, which was begun, by its read ranges.
    fn add_reads(
        &mut self,
        history: &History,
        batch: &Batch,
        txn: usize,
        reads: &RangesRef<'_>,
    ) -> Result<(), AllocError>
        requires newest { newest_of history.now.kept ≡ Some batch.now }
        ensures added { OnOk result ((t : Txn) (txns : List (List InConflict))
            → slice_get batch.now.txns txn ≡ Some t → reads.now ≡ t.reads
            → AreTalliesWith txns [] self.old
            → AreTalliesWith txns (conflicts_of history.now.kept batch.now txn t) self.new) }
    {
        for read in 0..reads.len() {
            self.add_read(history, txn, reads, read)?;
        }
        Ok(())
    }

    // Counts the read range at the index, if a write explains that it is in conflict.
    fn add_read(
        &mut self,
        history: &History,
        txn: usize,
        reads: &RangesRef<'_>,
        read: usize,
    ) -> Result<(), AllocError>
        requires within { read < length reads.now }
        ensures added { OnOk result ((range : Range) (txns : List (List InConflict))
            (conflicts : List InConflict) → slice_get reads.now read ≡ Some range
            → AreTalliesWith txns conflicts self.old → AreTalliesWith txns (conflicts
            ++ in_conflict range (newest_write
            (explaining_newest history.now.kept txn read))) self.new) }
    {
        match history.explain(txn, read) {
            Some(explanation) => self.note_write(&reads.get(read), &explanation.newest),
            None => Ok(()),
        }
    }

    // Counts a conflict with this write, of the transaction that was begun.
    fn note_write(&mut self, read: &RangeRef<'_>, write: &WrittenRef<'_>) -> Result<(), AllocError>
        ensures noted { OnOk result ((txns : List (List InConflict)) (conflicts : List InConflict)
            → AreTalliesWith txns conflicts self.old → AreTalliesWith txns
            (conflicts ++ record { read = read.now; written = write.now.range } ∷ []) self.new) }
    {
        self.note(read, &write.range)
    }

    // Counts a conflict of the transaction that was begun.
    fn note(&mut self, read: &RangeRef<'_>, written: &RangeRef<'_>) -> Result<(), AllocError>
        ensures noted { OnOk result ((txns : List (List InConflict)) (conflicts : List InConflict)
            → AreTalliesWith txns conflicts self.old → AreTalliesWith txns
            (conflicts ++ record { read = read.now; written = written.now } ∷ []) self.new) }
    {
        self.reads.note(self.alloc, self.txn_count, read)?;
        self.writes.note(self.alloc, self.txn_count, written)?;
        Ok(())
    }
}
