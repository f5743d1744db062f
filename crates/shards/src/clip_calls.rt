//! The clip of a batch to a shard, and to all shards.

ghost use Rattle.std.specs.Prelude.{◌≡◌, ◌<◌, length, slice_get, IfOk, IsSomeAnd};
ghost use Rattle.std.specs.List.{AllZip};
ghost use Rattle.keyspace.specs.storage.BatchRanges.{ranges_in};
ghost use Rattle.serial.specs.Shards.{shards};
ghost use Rattle.shards.specs.Clips.{IsClipped};
ghost use Rattle.shards.specs.Reach.{shard_at, IsReach};

use crate::clipped::Clipped;
use crate::reach::{Reach, reaches_of};
use crate::shard_tables::ShardTables;
use crate::split_points::SplitPoints;
use keyspace::Batch;
use std::alloc::{AllocError, Global};

/// Clips the batch to every shard, in the order of the shards. Returns an error if memory is
/// refused, or if the keys of a shard have more than 4 GiB. The keys are compared in one pass, and
/// each key of the batch is copied once.
pub fn clip_all(
    alloc: Global,
    batch: &Batch,
    points: &SplitPoints,
) -> Result<Vec<Clipped>, AllocError>
    ensures clips { IfOk result (λ all. AllZip (λ shard clipped. IsClipped shard batch.now clipped)
        (shards points.now) all.items) }
{
    let reaches = reaches_of(alloc, batch, points)?;
    let mut all = Vec::with_capacity(alloc, points.shard_count())?;
    for shard in 0..points.shard_count() {
        all.push(clip_by(alloc, batch, points, shard, &reaches)?)?;
    }
    Ok(all)
}

/// Clips the batch to one shard. Returns an error if memory is refused, or if the keys of the shard
/// have more than 4 GiB. For the batches of several shards, [`clip_all`] compares the
/// keys only once.
pub fn clip(
    alloc: Global,
    batch: &Batch,
    points: &SplitPoints,
    shard: usize,
) -> Result<Clipped, AllocError>
    requires within { shard < length (shards points.now) }
    ensures clip { IfOk result (λ clipped. IsSomeAnd (slice_get (shards points.now) shard)
        (λ shard. IsClipped shard batch.now clipped)) }
{
    let reaches = reaches_of(alloc, batch, points)?;
    clip_by(alloc, batch, points, shard, &reaches)
}

// Clips the batch to a shard, given the shards to which each of its ranges goes.
fn clip_by(
    alloc: Global,
    batch: &Batch,
    points: &SplitPoints,
    shard: usize,
    reaches: &[Reach],
) -> Result<Clipped, AllocError>
    requires within { shard < length (shards points.now) }
    requires reaches { AllZip (IsReach points.now) (ranges_in batch.now.txns) reaches.now }
    ensures clip { IfOk result
        (λ clipped. IsClipped (shard_at points.now shard) batch.now clipped) }
    ensures shard { slice_get (shards points.now) shard ≡ Some (shard_at points.now shard) }
{
    let mut tables = ShardTables::new(alloc, Vec::new(alloc), points, shard)?;
    let mut rest = reaches;
    for index in 0..batch.txns.len() {
        let txn = batch.txns.txn(index);
        let (own, later) = rest.split_at(txn.reads.len() + txn.writes.len());
        tables.put(&txn, own)?;
        rest = later;
    }
    tables.into_clipped(alloc, batch)
}
