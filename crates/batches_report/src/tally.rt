//! Batches and the replies to them, counted.

ghost use Rattle.std.specs.Prelude.{◌≡◌, ◌∷◌, ◌++◌, [], List, OnOk, length};
ghost use Rattle.keyspace.specs.declared.batch.Batch.{Batch as BatchValue};
ghost use Rattle.keyspace.specs.declared.reply.Reply.{Reply as ReplyValue};

use crate::error::ReportError;
use crate::left::Left;
use crate::row::TxnRow;
use crate::txn_tally::TxnTally;
use keyspace::{Batch, Reply};
use std::alloc::Global;

/// Batches and the replies to them, counted. The first batch of a version counts, and the first
/// reply. After an error it says nothing of its batches and replies.
#[derive(Debug, Drop)]
pub struct Tally {
    /// The replies whose batches haven't come.
    pub left: Left,
    /// The batches that have replies.
    pub rows: Vec<TxnRow>,
    /// Their transactions.
    pub txns: TxnTally,
}

impl Tally {
    ghost use Rattle.batches_report.specs.JudgedTxns.{JudgedTxn, txns_of};
    ghost use Rattle.batches_report.specs.Rows.{row_of};
    ghost use Rattle.batches_report.specs.Tallied.{Counts, IsTally};

    /// Creates it without batches and replies.
    pub fn new(alloc: Global) -> Self
        ensures none { IsTally [] [] result }
    {
        Tally {
            left: Left::new(alloc),
            rows: Vec::new(alloc),
            txns: TxnTally::new(alloc),
        }
    }

    /// Adds a reply. All replies are added before the batches.
    pub fn add_reply(&mut self, reply: Reply) -> Result<(), ReportError>
        ensures added { OnOk result ((replies : List ReplyValue) → IsTally replies [] self.old
            → IsTally (replies ++ reply ∷ []) [] self.new) }
    {
        Ok(self.left.add(reply)?)
    }

    /// Adds a batch. Returns [`ReportError::Unfit`] if the reply to it has another number of
    /// entries than the batch has transactions.
    pub fn add_batch(&mut self, alloc: Global, batch: &Batch) -> Result<(), ReportError>
        ensures added { OnOk result ((replies : List ReplyValue) (batches : List BatchValue)
            → IsTally replies batches self.old
            → IsTally replies (batches ++ batch.now ∷ []) self.new) }
    {
        let Some(reply) = self.left.take(batch.version) else {
            return Ok(());
        };
        self.add_answered(alloc, batch, &reply)?;
        Ok(())
    }

    // Adds a batch with the reply to it.
    fn add_answered(
        &mut self,
        alloc: Global,
        batch: &Batch,
        reply: &Reply,
    ) -> Result<(), ReportError>
        ensures left { self.new.left ≡ self.old.left }
        ensures fits { OnOk result (length reply.now.entries ≡ length batch.now.txns) }
        ensures rows { OnOk result
            (self.new.rows.items ≡ self.old.rows.items ++ row_of batch.now reply.now ∷ []) }
        ensures txns { OnOk result ((js : List JudgedTxn) → Counts js self.old.txns
            → Counts (js ++ txns_of batch.now reply.now) self.new.txns) }
    {
        if reply.entries.len() != batch.txns.len() {
            return Err(ReportError::Unfit(batch.version));
        }
        self.rows.push(TxnRow::of(batch, reply))?;
        self.txns.add_batch(alloc, batch, reply)
    }
}
