//! Processed batches.

ghost use Rattle.std.specs.Prelude.{◌≡◌, ◌≤◌, length, IfOk};
ghost use Rattle.keys.specs.Hash.{IsHashOf};
ghost use Rattle.keys.specs.declared.range.Range.{Range};
ghost use Rattle.explanations.specs.Writers.{IsNextWriter};

use crate::writer_index::WriterIndex;
use keyspace::{Batch, Reply};
use std::alloc::{AllocError, Global};
use std::marker::Model;

/// A batch that was processed, with the number of its proxy and its reply. The reply has one entry
/// per transaction.
#[derive(Debug, Drop)]
pub struct ProcessedBatch {
    proxy: usize,
    batch: Batch,
    reply: Reply,
    writers: WriterIndex,
    ghost entries: { length reply.entries ≡ length batch.txns },
}

impl Model for ProcessedBatch {
    ghost use Rattle.keyspace.specs.Processed.{Processed};
    ghost use Rattle.explanations.specs.Writers.{IsIndexOf};

    ghost Value = { Processed };

    ghost view = { λ p. record { proxy = p.proxy; batch = p.batch; reply = p.reply } };

    ghost invariant = { λ p. IsIndexOf p.writers p.batch.txns p.reply.entries };
}

impl ProcessedBatch {
    /// Puts a batch and its reply together, or returns an error if memory is refused. The reply
    /// needs one entry per transaction.
    pub fn new(alloc: Global, proxy: usize, batch: Batch, reply: Reply) -> Result<Self, AllocError>
        requires entries { length reply.entries ≡ length batch.txns }
        ensures proxy { IfOk result (λ processed. processed.proxy ≡ proxy) }
        ensures batch { IfOk result (λ processed. processed.batch ≡ batch) }
        ensures reply { IfOk result (λ processed. processed.reply ≡ reply) }
    {
        let writers = WriterIndex::new(alloc, &batch.txns, reply.entries.as_slice())?;
        Ok(ProcessedBatch {
            proxy,
            batch,
            reply,
            writers,
        })
    }

    /// Returns the number of the proxy that sent the batch.
    pub fn proxy(&self) -> usize
        ensures proxy { result ≡ self.now.proxy }
    {
        self.proxy
    }

    /// Returns the batch.
    pub fn batch(&self) -> &Batch
        ensures batch { result.now ≡ self.now.batch }
    {
        &self.batch
    }

    /// Returns the reply.
    pub fn reply(&self) -> &Reply
        ensures reply { result.now ≡ self.now.reply }
        ensures entries { length self.now.reply.entries ≡ length self.now.batch.txns }
    {
        &self.reply
    }

    // Returns the next transaction, from an index on, that may have written a range that overlaps
    // one with this hash.
    pub(crate) fn next_writer(&self, hash: Option<u32>, from: usize) -> Option<usize>
        requires within { from ≤ length self.now.batch.txns }
        ensures next { (range : Range) → IsHashOf range hash
            → IsNextWriter self.now.batch.txns self.now.reply.entries range from result }
    {
        if self.writers.has_ranges {
            return self.next_txn(from);
        }
        match hash {
            Some(hash) => self.writers.next(hash, from),
            None => self.next_txn(from),
        }
    }

    // Returns the index itself, if there is a transaction at it.
    fn next_txn(&self, from: usize) -> Option<usize>
        ensures next { (range : Range)
            → IsNextWriter self.now.batch.txns self.now.reply.entries range from result }
    {
        if from < self.batch.txns.len() {
            Some(from)
        } else {
            None
        }
    }
}
