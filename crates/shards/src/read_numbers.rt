//! How every shard numbers the read ranges of a batch.

ghost use Rattle.std.specs.Prelude.{◌≡◌, [], ◌∷◌, ◌++◌, length, IfOk, OnOk};
ghost use Rattle.std.specs.List.{AllZip};
ghost use Rattle.keyspace.specs.storage.BatchRanges.{ranges_in};
ghost use Rattle.serial.specs.Shards.{Shard, shards};
ghost use Rattle.shards.specs.Clips.{read_indices};
ghost use Rattle.shards.specs.Numbered.{AreNumbered};
ghost use Rattle.shards.specs.Reach.{IsReported};

use crate::reach::{Reach, reaches_of};
use crate::read_indices::ReadIndices;
use crate::shard_tables::put_indices;
use crate::split_points::SplitPoints;
use keyspace::{Batch, TxnRef};
use std::alloc::{AllocError, Global};

/// Returns what [`clip_all`](crate::clip_all) returns as the `reads` of every shard, in the order
/// of the shards, without clipping the batch. Returns an error if memory is refused. So replies can
/// be combined by the batch and the split points alone.
pub fn number_all(
    alloc: Global,
    batch: &Batch,
    points: &SplitPoints,
) -> Result<Vec<ReadIndices>, AllocError>
    ensures numbered { IfOk result (λ all. AllZip (λ shard reads. AreNumbered shard batch.now reads)
        (shards points.now) all.items) }
{
    let reaches = reaches_of(alloc, batch, points)?;
    let mut all = Vec::with_capacity(alloc, points.shard_count())?;
    for shard in 0..points.shard_count() {
        all.push(number_by(alloc, batch, shard, &reaches)?)?;
    }
    Ok(all)
}

// Finds the indices of the read ranges of a shard, given the shards to which each range goes.
fn number_by(
    alloc: Global,
    batch: &Batch,
    shard: usize,
    reaches: &[Reach],
) -> Result<ReadIndices, AllocError>
    requires reported { (owner : Shard)
        × AllZip (IsReported owner shard) (ranges_in batch.now.txns) reaches.now }
    ensures numbered { IfOk result (λ reads. (owner : Shard)
        → AllZip (IsReported owner shard) (ranges_in batch.now.txns) reaches.now
        → AreNumbered owner batch.now reads) }
{
    let mut indices = Vec::new(alloc);
    let mut ends = Vec::new(alloc);
    let mut rest = reaches;
    for index in 0..batch.txns.len() {
        let txn = batch.txns.txn(index);
        let (own, later) = rest.split_at(txn.reads.len() + txn.writes.len());
        put_numbers(&mut indices, &mut ends, shard, &txn, own)?;
        rest = later;
    }
    Ok(ReadIndices::new(indices, ends))
}

// Appends the indices of the read ranges of a transaction, and the position at which they end. The
// reaches are those of its read ranges, and then of its write ranges.
fn put_numbers(
    indices: &mut Vec<u16>,
    ends: &mut Vec<usize>,
    shard: usize,
    txn: &TxnRef<'_>,
    reaches: &[Reach],
) -> Result<(), AllocError>
    requires reported { (owner : Shard)
        × AllZip (IsReported owner shard) (txn.now.reads ++ txn.now.writes) reaches.now }
    ensures put { OnOk result ((owner : Shard)
        → AllZip (IsReported owner shard) (txn.now.reads ++ txn.now.writes) reaches.now
        → (indices.new.items ≡ indices.old.items ++ read_indices owner txn.now)
        × (ends.new.items ≡ ends.old.items
        ++ length (indices.old.items ++ read_indices owner txn.now) ∷ [])) }
{
    let (reads, _) = reaches.split_at(txn.reads.len());
    put_indices(indices, shard, reads)?;
    ends.push(indices.len())?;
    Ok(())
}
