//! A batch of transactions that C gives by their keys.

ghost use Rattle.std.specs.Prelude.{◌≡◌, ◌+◌, ◌-◌, ◌≤◌, [], ◌∷◌, ◌++◌, length, map, take, OnOk};
ghost use Rattle.std.specs.Prelude.{OnErr, IfOk, IfErr};
ghost use Rattle.keyspace.specs.storage.Fields.{txn_fields};
ghost use Rattle.keyspace.specs.Versions.{AreVersions};
ghost use Rattle.keyspace.specs.declared.batch.TheConstants.{MAX_TXNS};
ghost use Rattle.archcaraway_c.specs.BatchObject.{txn_given, AddRefuses, AppendRefuses, IsBatchOf};

use crate::batch_tables::BatchTables;
use crate::given_range::check_ranges;
use crate::key_span::KeySpan;
use crate::refusal::Refusal;
use keyspace::{Batch, MAX_RANGES, MAX_TXNS, Txns};
use std::alloc::{AllocError, Global};
use std::marker::Model;
use wire::WireError;

/// A batch without versions that C holds by a handle. Contracts see the list of the fields of its
/// transactions.
#[derive(Drop)]
pub struct BatchObject {
    alloc: Global,
    tables: BatchTables,
}

impl Model for BatchObject {
    ghost use Rattle.std.specs.Prelude.{◌≤◌, List, vec_len};
    ghost use Rattle.keyspace.specs.storage.Fields.{TxnFields};
    ghost use Rattle.keyspace.specs.storage.Tables.{txns_of_tables, AreTables};
    ghost use Rattle.keyspace.specs.declared.batch.TheConstants.{MAX_TXNS};

    ghost Value = { List TxnFields };

    ghost view = { λ b. txns_of_tables b.tables.buffer.items b.tables.spans.items
        b.tables.rows.items };

    ghost invariant = { λ b. AreTables b.tables.buffer.items b.tables.spans.items
        b.tables.rows.items
        × (vec_len b.tables.rows ≤ MAX_TXNS) };
}

impl BatchObject {
    /// Creates a batch of no transaction, or returns an error if memory is refused.
    pub fn new(alloc: Global) -> Result<Self, AllocError>
        ensures none { IfOk result (λ batch. batch ≡ []) }
    {
        let tables = BatchTables::new(alloc)?;
        Ok(BatchObject { alloc, tables })
    }

    /// Adds a transaction after the others. Its read ranges and its write ranges lie among the
    /// bytes of its keys.
    ///
    /// The first of these that holds decides. The snapshot is negative: `Wire` of `Version`. There
    /// are as many transactions as a batch may have, or too many ranges: `Count`. A range is none:
    /// `KeyLength`, `Inverted`, or `Argument` if a key doesn't lie among the bytes. Memory is
    /// refused, or all keys would have more than 4 GiB: `Memory`. After a refusal the batch is as
    /// before.
    pub fn add(
        &mut self,
        snapshot: i64,
        marked: bool,
        keys: &[u8],
        reads: &[KeySpan],
        writes: &[KeySpan],
    ) -> Result<(), Refusal>
        ensures added { OnOk result (self.new
            ≡ self.old ++ txn_given snapshot marked keys.now reads.now writes.now ∷ []) }
        ensures refused { IfErr result
            (λ refusal. AddRefuses self.old snapshot keys.now reads.now writes.now refusal) }
        ensures kept { OnErr result (self.new ≡ self.old) }
    {
        if snapshot < 0 {
            return Err(Refusal::Wire(WireError::Version));
        }
        if self.room() == 0 || reads.len() > MAX_RANGES || writes.len() > MAX_RANGES {
            return Err(Refusal::Wire(WireError::Count));
        }
        if let Err(refusal) = check_ranges(keys, reads) {
            return Err(refusal);
        }
        if let Err(refusal) = check_ranges(keys, writes) {
            return Err(refusal);
        }
        match self.tables.put(snapshot, marked, keys, reads, writes) {
            Ok(()) => Ok(()),
            Err(AllocError) => Err(Refusal::Wire(WireError::Memory)),
        }
    }

    /// Appends the transactions of another batch. Returns `Wire` of `Count` if there would be too
    /// many, and that of `Memory` if memory is refused or all keys would have more than 4 GiB.
    /// After a refusal the batch is as before.
    pub fn append(&mut self, other: &BatchObject) -> Result<(), Refusal>
        ensures appended { OnOk result (self.new ≡ self.old ++ other.now) }
        ensures refused { IfErr result (λ refusal. AppendRefuses self.old other.now refusal) }
        ensures kept { OnErr result (self.new ≡ self.old) }
    {
        let room = self.room();
        let count = other.len();
        if room < count {
            return Err(Refusal::Wire(WireError::Count));
        }
        match self.tables.put_all(&other.tables) {
            Ok(()) => Ok(()),
            Err(AllocError) => Err(Refusal::Wire(WireError::Memory)),
        }
    }

    /// Removes the last transaction, if there is one. Its memory is kept until the batch is
    /// cleared.
    pub fn drop_last(&mut self)
        ensures dropped { self.new ≡ take (length self.old - 1) self.old }
    {
        self.tables.drop_last();
    }

    /// Removes all transactions. Their memory is kept for others.
    pub fn clear(&mut self)
        ensures none { self.new ≡ [] }
    {
        self.tables.buffer.clear();
        self.tables.spans.clear();
        self.tables.rows.clear();
    }

    /// Returns the number of transactions.
    pub fn len(&self) -> usize
        ensures count { result ≡ length self.now }
        ensures few { result ≤ MAX_TXNS }
    {
        self.tables.rows.len()
    }

    /// Returns how many more transactions may be added.
    pub fn room(&self) -> usize
        ensures room { result + length self.now ≡ MAX_TXNS }
    {
        MAX_TXNS - self.len()
    }

    /// Copies the transactions into a batch of these versions, or returns an error if memory is
    /// refused.
    pub fn to_batch(&self, previous: i64, version: i64, received: i64) -> Result<Batch, AllocError>
        requires versions { AreVersions previous version received }
        ensures batch { IfOk result (λ batch. IsBatchOf previous version received self.now batch) }
    {
        let _ = &self.tables;
        let txns = self.to_txns()?;
        Ok(Batch::new(previous, version, received, txns))
    }

    // Copies the transactions, or returns an error if memory is refused.
    fn to_txns(&self) -> Result<Txns, AllocError>
        ensures txns { IfOk result (λ txns. map txn_fields txns ≡ self.now) }
    {
        let buffer = Vec::from_slice(self.alloc, &self.tables.buffer)?;
        let spans = Vec::from_slice(self.alloc, &self.tables.spans)?;
        let rows = Vec::from_slice(self.alloc, &self.tables.rows)?;
        Txns::from_tables(self.alloc, buffer, spans, rows)
    }
}
