//! The transactions of a batch, in one buffer with tables beside it.

ghost use Rattle.std.specs.Prelude.{◌≡◌, ◌⊎◌, ◌+◌, ◌<◌, ◌≤◌, ℕ, All, Some, length, vec_len};
ghost use Rattle.std.specs.Prelude.{map, slice_get};
ghost use Rattle.std.specs.Prelude.{IfOk, IsSomeAnd};
ghost use Rattle.keys.specs.Hash.{IsHashOf};
ghost use Rattle.keys.specs.Range.{IsSingle};
ghost use Rattle.keys.specs.GapRuns.{AreChosenInOrder, AreRanked};
ghost use Rattle.keys.specs.Singles.{AreRankedFor};
ghost use Rattle.keys.specs.declared.range.Range.{Range};
ghost use Rattle.keyspace.specs.storage.BatchRanges.{is_write_in, ranges_in, writes_in};
ghost use Rattle.keyspace.specs.storage.Fields.{txn_fields};
ghost use Rattle.keyspace.specs.storage.Tables.{txns_of_tables, AreTables, AreTables-prop};
ghost use Rattle.keyspace.specs.declared.batch.TheConstants.{MAX_TXNS};
ghost use Rattle.keyspace.specs.declared.txn.Txn.{Txn as TxnValue};

use crate::ranges_ref::RangesRef;
use crate::row::{Row, first_span};
use crate::span::Span;
use crate::tables::Tables;
use crate::txn::Txn;
use crate::txn_ref::TxnRef;
use crate::write_order::{list_writes, mark_writes};
use keys::{GapRuns, HashedRange, single_hashes};
use std::alloc::{AllocError, Global};
use std::marker::Model;

/// The transactions of a batch, in the order in which they are judged. Contracts see the list of
/// these.
///
/// They are in one buffer with the bytes of all keys, a table of spans with the position of each
/// range in it, and a table with one row per transaction. Some values don't depend on other
/// batches, and are computed once, when the transactions are put together. These are the order of
/// the write ranges by begins, the gaps between begins that each range covers, and the hashes of
/// single keys.
#[derive(Debug, Drop)]
pub struct Txns {
    buffer: Vec<u8>,
    spans: Vec<Span>,
    rows: Vec<Row>,
    ranks: GapRuns,
    // The indices of the write ranges that aren't empty, in the order of the ranks.
    write_order: Vec<u32>,
    // Of each range that is a single key; or none at all, if there is no such range.
    hashes: Vec<Option<u32>>,
    ghost tables: { AreTables buffer.items spans.items rows.items } by { AreTables-prop buffer.items
        spans.items rows.items },
    ghost few: { vec_len rows ≤ MAX_TXNS },
}

impl Model for Txns {
    ghost use Rattle.std.specs.Prelude.{◌⊎◌, All, List};
    ghost use Rattle.keys.specs.Hash.{AreHashesOf};
    ghost use Rattle.keys.specs.Range.{IsSingle};
    ghost use Rattle.keys.specs.GapRuns.{AreChosenInOrder, AreRanked};
    ghost use Rattle.keys.specs.Singles.{AreRankedFor};
    ghost use Rattle.keyspace.specs.storage.BatchRanges.{is_write_in, ranges_in, writes_in};
    ghost use Rattle.keyspace.specs.storage.Fields.{txns_with};
    ghost use Rattle.keyspace.specs.storage.Tables.{txns_of_tables};
    ghost use Rattle.keyspace.specs.declared.txn.Txn.{Txn};

    ghost Value = { List Txn };

    ghost view = { λ t. txns_with (txns_of_tables t.buffer.items t.spans.items t.rows.items)
        t.tables.holds };

    ghost invariant = { λ t.
        let txns = txns_with (txns_of_tables t.buffer.items t.spans.items t.rows.items)
        t.tables.holds in
        AreRankedFor (writes_in txns) (ranges_in txns) t.ranks
        × (AreRanked (ranges_in txns) t.ranks ⊎ All IsSingle (ranges_in txns))
        × AreChosenInOrder (is_write_in txns) (ranges_in txns) t.write_order.items
        × AreHashesOf (ranges_in txns) t.hashes.items };
}

impl Txns {
    /// Puts transactions together in this order, or returns an error if memory is refused, or if
    /// their keys have more than 4 GiB.
    pub fn new(alloc: Global, txns: Vec<Txn>) -> Result<Self, AllocError>
        requires few { vec_len txns ≤ MAX_TXNS }
        ensures txns { IfOk result (λ kept. kept ≡ txns.items) }
    {
        let tables = Tables::of(alloc, &txns)?;
        Txns::from_tables(alloc, tables.buffer, tables.spans, tables.rows)
    }

    /// Takes the transactions that the tables mean, without copying a key, or returns an error if
    /// memory is refused.
    pub fn from_tables(
        alloc: Global,
        buffer: Vec<u8>,
        spans: Vec<Span>,
        rows: Vec<Row>,
    ) -> Result<Self, AllocError>
        requires tables { AreTables buffer.items spans.items rows.items }
        requires few { vec_len rows ≤ MAX_TXNS }
        ensures fields { IfOk result (λ txns. map txn_fields txns
            ≡ txns_of_tables buffer.items spans.items rows.items) }
    {
        let ranges = RangesRef::new(&buffer, &spans);
        let hashes = single_hashes(alloc, &ranges)?;
        let written = mark_writes(alloc, &rows)?;
        let (ranks, order) = GapRuns::for_written(alloc, &ranges, &hashes, &written)?;
        let write_order = list_writes(alloc, order, &written)?;
        Ok(Txns {
            buffer,
            spans,
            rows,
            ranks,
            write_order,
            hashes,
        })
    }

    /// Returns the number of transactions.
    pub fn len(&self) -> usize
        ensures count { result ≡ length self.now }
    {
        self.rows.len()
    }

    /// Returns the transaction at the index, without copying its keys.
    pub fn txn(&self, index: usize) -> TxnRef<'_>
        requires within { index < length self.now }
        ensures txn { slice_get self.now index ≡ Some result }
    {
        let row = self.rows[index];
        let begin = first_span(&self.rows, index) as usize;
        let end = row.end as usize;
        let middle = end - row.writes as usize;
        let ranges = self.ranges();
        TxnRef {
            snapshot: row.snapshot,
            marked: row.marked,
            reads: ranges.slice(begin, middle),
            writes: ranges.slice(middle, end),
        }
    }

    /// Returns the read version of the transaction at the index.
    pub fn snapshot(&self, index: usize) -> i64
        requires within { index < length self.now }
        ensures snapshot { IsSomeAnd (slice_get self.now index) (λ txn. result ≡ txn.snapshot) }
    {
        self.rows[index].snapshot
    }

    /// Returns the index in [`Txns::ranges`] of a read range of a transaction, by their indices.
    pub fn read_index(&self, index: usize, read: usize) -> u32
        requires within { IsSomeAnd (slice_get self.now index) (λ txn. read < length txn.reads) }
        ensures range { (txn : TxnValue) (range : Range) → slice_get self.now index ≡ Some txn
            → slice_get txn.reads read ≡ Some range
            → slice_get (ranges_in self.now) result ≡ Some range }
    {
        first_span(&self.rows, index) + read as u32
    }

    /// Returns the index in [`Txns::ranges`] of the first write range of a transaction. Those of
    /// its other write ranges follow.
    pub fn first_write_index(&self, index: usize) -> u32
        requires within { index < length self.now }
        ensures writes { (txn : TxnValue) (write : ℕ) (range : Range)
            → slice_get self.now index ≡ Some txn → slice_get txn.writes write ≡ Some range
            → slice_get (ranges_in self.now) (result + write) ≡ Some range }
    {
        let row = self.rows[index];
        row.end - row.writes as u32
    }

    /// Returns the range at the index in [`Txns::ranges`], without copying its keys, and with its
    /// hash, without looking at them.
    pub fn hashed_range(&self, index: usize) -> HashedRange<'_>
        requires within { index < length (ranges_in self.now) }
        ensures range { slice_get (ranges_in self.now) index ≡ Some result }
    {
        HashedRange::new(self.ranges().get(index), self.hash(index))
    }

    /// Returns what [`RangeRef::single_hash`](keys::RangeRef::single_hash) returns for the range at
    /// the index in [`Txns::ranges`], and looks at no key.
    pub fn hash(&self, index: usize) -> Option<u32>
        ensures hash { (range : Range) → slice_get (ranges_in self.now) index ≡ Some range
            → IsHashOf range result }
    {
        match self.hashes.get(index) {
            Some(hash) => *hash,
            None => None,
        }
    }

    /// Returns the ranges of the transactions as one list: those of each transaction, its read
    /// ranges before its write ranges.
    pub fn ranges(&self) -> RangesRef<'_>
        ensures ranges { result ≡ ranges_in self.now }
    {
        RangesRef::new(&self.buffer, &self.spans)
    }

    /// Returns which of the gaps between the begins of the ranges each of these covers. The index
    /// of a range is that in [`Txns::ranges`]. If all ranges are single keys, a key that is read
    /// and not written may have an empty run.
    pub fn ranks(&self) -> &GapRuns
        ensures ranked { AreRankedFor (writes_in self.now) (ranges_in self.now) result.now }
        ensures exact { AreRanked (ranges_in self.now) result.now
            ⊎ All IsSingle (ranges_in self.now) }
    {
        &self.ranks
    }

    /// Returns the indices of the write ranges that aren't empty, in the order of their begins. The
    /// index of a range is that in [`Txns::ranges`].
    pub fn write_order(&self) -> &[u32]
        ensures order { AreChosenInOrder (is_write_in self.now) (ranges_in self.now) result.now }
    {
        &self.write_order
    }
}
