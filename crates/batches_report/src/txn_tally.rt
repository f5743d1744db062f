//! Judged transactions, counted.

ghost use Rattle.std.specs.Prelude.{◌≡◌, ◌≤ℤ◌, ◌∷◌, ◌++◌, [], List, length, pos, OnOk};

use crate::ages::put_age;
use crate::error::ReportError;
use crate::heat::Heat;
use keyspace::{Batch, Entry, Reply, TxnRef};
use std::alloc::Global;

/// Judged transactions, counted.
#[derive(Debug, Drop)]
pub struct TxnTally {
    /// The versions from each snapshot that was too old to its batch.
    pub ages: Vec<i64>,
    /// How many transactions each read range was in conflict for.
    pub heat: Heat,
}

impl TxnTally {
    ghost use Rattle.batches_report.specs.JudgedTxns.{JudgedTxn, txns_of};
    ghost use Rattle.batches_report.specs.Tallied.{Counts};

    /// Creates it without transactions.
    pub fn new(alloc: Global) -> Self
        ensures none { Counts [] result }
    {
        TxnTally {
            ages: Vec::new(alloc),
            heat: Heat::new(alloc),
        }
    }

    /// Counts the transactions of a batch, by the reply to it.
    pub fn add_batch(
        &mut self,
        alloc: Global,
        batch: &Batch,
        reply: &Reply,
    ) -> Result<(), ReportError>
        requires fits { length reply.now.entries ≡ length batch.now.txns }
        ensures added { OnOk result ((js : List JudgedTxn) → Counts js self.old
            → Counts (js ++ txns_of batch.now reply.now) self.new) }
    {
        let entries = reply.entries.as_slice();
        for index in 0..batch.txns.len() {
            let txn = batch.txns.txn(index);
            self.add(alloc, batch.version, &txn, &entries[index])?;
        }
        Ok(())
    }

    // Counts a transaction of a batch of this version.
    fn add(
        &mut self,
        alloc: Global,
        version: i64,
        txn: &TxnRef<'_>,
        entry: &Entry,
    ) -> Result<(), ReportError>
        requires natural { pos 0 ≤ℤ version }
        ensures added { OnOk result ((js : List JudgedTxn) → Counts js self.old
            → Counts (js ++ record { version = version; txn = txn.now; entry = entry.now } ∷ [])
            self.new) }
    {
        put_age(&mut self.ages, version, txn, entry)?;
        self.heat.add(alloc, txn, entry)
    }
}
