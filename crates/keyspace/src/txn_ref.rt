//! Transactions whose keys are borrowed.

ghost use Rattle.std.specs.Prelude.{◌≡◌, ◌≤◌, ◌≤ℤ◌, pos, length};
ghost use Rattle.keyspace.specs.declared.txn.TheConstants.{MAX_RANGES};

use crate::ranges_ref::RangesRef;
use std::marker::Model;

/// A transaction of a batch, whose keys are borrowed. Contracts see it as the transaction.
// It isn't `Copy`, which the language doesn't have yet on a struct with a lifetime and a model.
#[derive(Debug, Drop)]
pub struct TxnRef<'a> {
    /// The read version of the transaction, 0 or more.
    pub snapshot: i64,
    /// Whether the transaction asks for the places of its read ranges in conflict.
    pub marked: bool,
    /// The read conflict ranges, at most [`MAX_RANGES`](crate::MAX_RANGES), in the order sent.
    pub reads: RangesRef<'a>,
    /// The write conflict ranges, at most [`MAX_RANGES`](crate::MAX_RANGES), in the order sent.
    pub writes: RangesRef<'a>,
    ghost natural: { pos 0 ≤ℤ snapshot },
    ghost few_reads: { length reads ≤ MAX_RANGES },
    ghost few_writes: { length writes ≤ MAX_RANGES },
}

impl<'a> Model for TxnRef<'a> {
    ghost use Rattle.keyspace.specs.contracts.txn.Txn as txn_type;
    ghost use Rattle.keyspace.specs.declared.txn.Txn.{Txn};

    ghost Value = { Txn };

    ghost coded = { txn_type.the_row.coded };

    ghost view = { λ t. record {
      snapshot = t.snapshot;
      marked = t.marked;
      reads = t.reads;
      writes = t.writes;
      natural = t.natural;
      few_reads = t.few_reads;
      few_writes = t.few_writes;
    } };
}
