//! The batches that may still explain a conflict.

ghost use Rattle.std.specs.Prelude.{◌≡◌, ◌++◌, ◌∷◌, ◌≤◌, ◌≤ℤ◌, [], List, pos, Some, OnOk, OnErr};
ghost use Rattle.std.specs.Prelude.{option_copied};
ghost use Rattle.std.specs.Int.{int_max};
ghost use Rattle.std.specs.VecDeque.{deque_capacity, deque_len};
ghost use Rattle.keyspace.specs.Processed.{Processed};
ghost use Rattle.keyspace.specs.Judged.{edge};
ghost use Rattle.explanations.specs.Explains.{explaining_newest, newest_of};
ghost use Rattle.explanations.specs.Found.{IsFound};
ghost use Rattle.explanations.specs.History.{DropsUpTo, Keeps};

use crate::explanation::Explanation;
use crate::processed::ProcessedBatch;
use crate::question::ReadQuestion;
use crate::write_search::search;
use keys::HashedRange;
use keyspace::Batch;
use std::alloc::{AllocError, Global};
use std::collections::VecDeque;
use std::marker::Model;

/// The batches of a chain that may still explain a conflict, oldest first.
///
/// It keeps each batch with its keys until no transaction to come may read below its version.
#[derive(Debug, Drop)]
pub struct History {
    window: i64,
    // a transaction with a lower snapshot is too old in every batch to come
    edge: i64,
    kept: VecDeque<ProcessedBatch>,
}

impl Model for History {
    ghost use Rattle.explanations.specs.History.{HistoryState, IsHistory};

    ghost Value = { HistoryState };

    ghost view = { λ h. record { window = h.window; edge = h.edge; kept = h.kept.items } };

    ghost invariant = { λ h. IsHistory
        (record { window = h.window; edge = h.edge; kept = h.kept.items }) };
}

impl History {
    /// Creates a history of no batches, without taking memory. `window` is how far back a
    /// transaction may read, in versions.
    pub fn new(alloc: Global, window: i64) -> Self
        requires least_window { pos 1 ≤ℤ window }
        ensures window { result.window ≡ window }
        ensures edge { result.edge ≡ pos 0 }
        ensures empty { result.kept ≡ [] }
    {
        History {
            window,
            edge: 0,
            kept: VecDeque::new(alloc),
        }
    }

    /// Adds the batch that was processed last, and drops those that explain nothing any more. If
    /// memory is refused, the history stays as it was.
    pub fn push(&mut self, processed: ProcessedBatch) -> Result<(), AllocError>
        ensures keeps { OnOk result ((ps : List Processed) → Keeps ps self.old
            → Keeps (ps ++ processed ∷ []) self.new) }
        ensures edge { OnOk result
            (self.new.edge ≡ int_max self.old.edge (edge self.old.window processed.batch)) }
        ensures window { self.new.window ≡ self.old.window }
        ensures newest { OnOk result (newest_of self.new.kept ≡ Some processed.batch) }
        ensures unchanged { OnErr result (self.new ≡ self.old) }
    {
        self.kept.reserve(1)?;
        self.edge = (processed.batch().version - self.window).max(self.edge);
        drop_old(&mut self.kept, self.edge);
        self.kept.push_back_reserved(processed);
        Ok(())
    }

    /// Returns how far back a transaction may read, in versions; 1 or more.
    pub fn window(&self) -> i64
        ensures window { result ≡ self.now.window }
        ensures least { pos 1 ≤ℤ self.now.window }
    {
        self.window
    }

    /// Returns the batch added last, or `None` if there is none.
    pub fn newest(&self) -> Option<&Batch>
        ensures newest { option_copied result ≡ newest_of self.now.kept }
    {
        Some(self.kept.back()?.batch())
    }

    /// Explains why a read range of the batch added last is in conflict: `read` is its index in the
    /// transaction at the index `txn`. Returns `None` if no write explains it, or if there is no
    /// such range.
    ///
    /// For a transaction that isn't too old it is the explanation by all batches of the chain
    /// ([`laws::dropped_batches_explain_nothing`](crate::laws::dropped_batches_explain_nothing)).
    pub fn explain(&self, txn: usize, read: usize) -> Option<Explanation<'_>>
        ensures found { IsFound (explaining_newest self.now.kept txn read) result }
    {
        let batch = self.kept.back()?.batch();
        if txn >= batch.txns.len() {
            return None;
        }
        let transaction = batch.txns.txn(txn);
        if read >= transaction.reads.len() {
            return None;
        }
        let question = ReadQuestion {
            version: batch.version,
            txn,
            snapshot: batch.txns.snapshot(txn),
            range: HashedRange::of(transaction.reads.get(read)),
        };
        search(&question, &self.kept)
    }
}

// Drops the batches at or below the edge, up to the first that isn't.
fn drop_old(kept: &mut VecDeque<ProcessedBatch>, edge: i64)
    ensures drops { DropsUpTo edge kept.old.items kept.new.items }
    ensures fewer { deque_len kept.new ≤ deque_len kept.old }
    ensures capacity { deque_capacity kept.new ≡ deque_capacity kept.old }
{
    while let Some(processed) = kept.front() {
        if processed.batch().version > edge {
            break;
        }
        kept.pop_front();
    }
}
