//! The tables of a shard while a batch is clipped to it.

ghost use Rattle.std.specs.Prelude.{◌≡◌, ◌<◌, ◌≤◌, ◌∷◌, ◌++◌, [], ℕ, List, length};
ghost use Rattle.std.specs.Prelude.{◌+◌, map};
ghost use Rattle.std.specs.Prelude.{All, IfOk, OnOk};
ghost use Rattle.std.specs.List.{AllZip};
ghost use Rattle.keys.specs.declared.range.Range.{Range};
ghost use Rattle.keyspace.specs.declared.batch.TheConstants.{MAX_TXNS};
ghost use Rattle.keyspace.specs.declared.txn.TheConstants.{MAX_RANGES};
ghost use Rattle.keyspace.specs.declared.txn.Txn.{Txn};
ghost use Rattle.keyspace.specs.storage.Fields.{txn_fields};
ghost use Rattle.keyspace.specs.Judge.{places_from};
ghost use Rattle.keyspace.specs.storage.Tables.{txn_of_row, LiesWithin};
ghost use Rattle.serial.specs.Shards.{Shard, shards};
ghost use Rattle.shards.specs.Built.{AreLeft, IsBuilt};
ghost use Rattle.shards.specs.Clips.{goes_to, read_indices, IsClipped, IsTxnClip};
ghost use Rattle.shards.specs.Cut.{shard_of_ends};
ghost use Rattle.shards.specs.Reach.{shard_at, IsReported};

use crate::clipped::Clipped;
use crate::copied_clips::{put_clips, put_key};
use crate::kept_clips::{keep_reads, keep_writes};
use crate::reach::Reach;
use crate::read_indices::ReadIndices;
use crate::shard_bounds::Bounds;
use crate::shard_ends::ShardEnds;
use crate::split_points::SplitPoints;
use keyspace::{Batch, Row, Span, TxnRef, Txns};
use std::alloc::{AllocError, Global};

/// The tables of the transactions that are clipped to a shard.
#[derive(Debug, Drop)]
pub(crate) struct ShardTables {
    bounds: Bounds,
    // The ends of the shard, and the keys of the ranges that begin or end in it.
    buffer: Vec<u8>,
    spans: Vec<Span>,
    rows: Vec<Row>,
    // The indices of the read ranges, and where those of each transaction end.
    indices: Vec<u16>,
    ends: Vec<usize>,
}

impl ShardTables {
    /// Creates the tables of the shard, without transactions. Their keys lie in this buffer, to
    /// which the ends of the shard are appended. Returns an error if memory is refused, or if the
    /// buffer has more than 4 GiB.
    pub fn new(
        alloc: Global,
        buffer: Vec<u8>,
        points: &SplitPoints,
        shard: usize,
    ) -> Result<Self, AllocError>
        requires within { shard < length (shards points.now) }
        ensures built { IfOk result
            (λ tables. IsBuilt (shard_at points.now shard) shard [] tables) }
        ensures buffer { IfOk result
            (λ tables. (more : List ℕ) × (tables.buffer.items ≡ buffer.items ++ more)) }
    {
        let mut buffer = buffer;
        let from = put_key(&mut buffer, points.first_key(shard))?;
        let to = put_key(&mut buffer, points.end_key(shard))?;
        points.shard_count();
        Ok(ShardTables {
            bounds: Bounds { shard, from, to },
            buffer,
            spans: Vec::new(alloc),
            rows: Vec::new(alloc),
            indices: Vec::new(alloc),
            ends: Vec::new(alloc),
        })
    }

    /// Appends the clip of a transaction. The reaches are those of its read ranges, and then of its
    /// write ranges. After an error, which says that memory was refused, or that the keys have more
    /// than 4 GiB, the tables are unspecified.
    pub fn put(&mut self, txn: &TxnRef<'_>, reaches: &[Reach]) -> Result<(), AllocError>
        requires built { (shard : Shard) × (m : ℕ) × (txns : List Txn)
            × IsBuilt shard m txns self.old
            × (length txns < MAX_TXNS)
            × AllZip (IsReported shard m) (txn.now.reads ++ txn.now.writes) reaches.now }
        ensures built { OnOk result ((shard : Shard) (m : ℕ) (txns : List Txn)
            → IsBuilt shard m txns self.old
            → length txns < MAX_TXNS
            → AllZip (IsReported shard m) (txn.now.reads ++ txn.now.writes) reaches.now
            → IsBuilt shard m (txns ++ txn.now ∷ []) self.new) }
    {
        let (reads, writes) = reaches.split_at(txn.reads.len());
        put_clips(
            &mut self.buffer,
            &mut self.spans,
            &self.bounds,
            &txn.reads,
            reads,
        )?;
        let middle = self.spans.len();
        put_clips(
            &mut self.buffer,
            &mut self.spans,
            &self.bounds,
            &txn.writes,
            writes,
        )?;
        put_indices(&mut self.indices, self.bounds.shard, reads)?;
        self.ends.push(self.indices.len())?;
        self.rows.push(Row {
            snapshot: txn.snapshot,
            end: self.spans.len() as u32,
            writes: (self.spans.len() - middle) as u16,
            marked: txn.marked,
        })?;
        Ok(())
    }

    /// Appends the clip of the transaction of a row, whose spans begin at an index, and whose keys
    /// lie in the buffer. An error says that memory was refused. Then the tables are unspecified,
    /// except for their buffer.
    pub fn keep(
        &mut self,
        shard: &ShardEnds<'_>,
        row: &Row,
        from: usize,
        spans: &[Span],
    ) -> Result<(), AllocError>
        requires rows { from + row.now.writes ≤ row.now.end }
        requires within { row.now.end ≤ length spans.now }
        requires lie { All (LiesWithin (length self.old.buffer.items)) spans.now }
        requires built { (m : ℕ) × (txns : List Txn) × (t : Txn)
            × IsBuilt (shard_of_ends shard.now) m txns self.old
            × (length txns < MAX_TXNS)
            × (txn_of_row self.old.buffer.items spans.now from row.now ≡ txn_fields t) }
        ensures built { OnOk result ((m : ℕ) (txns : List Txn) (t : Txn)
            → IsBuilt (shard_of_ends shard.now) m txns self.old
            → length txns < MAX_TXNS
            → txn_of_row self.old.buffer.items spans.now from row.now ≡ txn_fields t
            → IsBuilt (shard_of_ends shard.now) m (txns ++ t ∷ []) self.new) }
        ensures buffer { self.new.buffer ≡ self.old.buffer }
    {
        let end = row.end as usize;
        let middle = end - row.writes as usize;
        keep_reads(
            &mut self.spans,
            &mut self.indices,
            &self.bounds,
            shard,
            &self.buffer,
            &spans[from..middle],
        )?;
        let count = self.spans.len();
        keep_writes(
            &mut self.spans,
            &self.bounds,
            shard,
            &self.buffer,
            &spans[middle..end],
        )?;
        self.ends.push(self.indices.len())?;
        self.rows.push(Row {
            snapshot: row.snapshot,
            end: self.spans.len() as u32,
            writes: (self.spans.len() - count) as u16,
            marked: row.marked,
        })?;
        Ok(())
    }

    /// Appends the clips of the transactions of all rows, as [`ShardTables::keep`] does.
    pub fn keep_all(
        &mut self,
        shard: &ShardEnds<'_>,
        rows: &[Row],
        spans: &[Span],
    ) -> Result<(), AllocError>
        requires lie { All (LiesWithin (length self.old.buffer.items)) spans.now }
        requires built { (m : ℕ) × (txns : List Txn)
            × IsBuilt (shard_of_ends shard.now) m [] self.old
            × (length txns ≤ MAX_TXNS)
            × AreLeft self.old.buffer.items spans.now 0 rows.now txns }
        ensures built { OnOk result ((m : ℕ) (txns : List Txn)
            → IsBuilt (shard_of_ends shard.now) m [] self.old
            → length txns ≤ MAX_TXNS
            → AreLeft self.old.buffer.items spans.now 0 rows.now txns
            → IsBuilt (shard_of_ends shard.now) m txns self.new) }
    {
        let mut from = 0;
        for row in rows {
            self.keep(shard, row, from, spans)?;
            from = row.end as usize;
        }
        Ok(())
    }

    /// Makes the batch of the shard, whose versions are those of the batch as it was sent, or
    /// returns an error if memory is refused.
    pub fn into_clipped(self, alloc: Global, batch: &Batch) -> Result<Clipped, AllocError>
        requires built { (shard : Shard) × (m : ℕ) × IsBuilt shard m batch.now.txns self }
        ensures clipped { IfOk result (λ clipped. (shard : Shard) (m : ℕ)
            → IsBuilt shard m batch.now.txns self
            → IsClipped shard batch.now clipped) }
    {
        let (txns, reads) = self.into_txns(alloc)?;
        Ok(Clipped {
            batch: Batch::new(batch.previous, batch.version, batch.received, txns),
            reads,
        })
    }

    /// Makes the transactions of the shard, whose ranges it orders, and the indices of their read
    /// ranges, or returns an error if memory is refused.
    pub fn into_txns(self, alloc: Global) -> Result<(Txns, ReadIndices), AllocError>
        requires built { (shard : Shard) × (m : ℕ) × (txns : List Txn) × IsBuilt shard m txns self
            × (length txns ≤ MAX_TXNS) }
        ensures clips { IfOk result (λ made. (shard : Shard) (m : ℕ) (txns : List Txn)
            → IsBuilt shard m txns self
            → AllZip (IsTxnClip shard) txns made.0 × (made.1 ≡ map (read_indices shard) txns)) }
        ensures few { IfOk result (λ made. length made.0 ≤ MAX_TXNS) }
    {
        let ShardTables {
            buffer,
            spans,
            rows,
            indices,
            ends,
            ..
        } = self;
        let txns = Txns::from_tables(alloc, buffer, spans, rows)?;
        Ok((txns, ReadIndices::new(indices, ends)))
    }
}

/// Appends the indices of those ranges that go to the shard. Returns an error if memory is refused.
pub(crate) fn put_indices(
    indices: &mut Vec<u16>,
    shard: usize,
    reaches: &[Reach],
) -> Result<(), AllocError>
    requires few { length reaches.now ≤ MAX_RANGES }
    ensures put { OnOk result ((owner : Shard) (ranges : List Range)
        → AllZip (IsReported owner shard) ranges reaches.now
        → indices.new.items ≡ indices.old.items ++ places_from 0 (goes_to owner) ranges) }
{
    for (index, reach) in reaches.iter().enumerate() {
        if reach.includes(shard) {
            indices.push(index as u16)?;
        }
    }
    Ok(())
}
