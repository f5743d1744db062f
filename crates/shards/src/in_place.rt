//! The clip of a batch to a shard, in the buffer of the batch.

ghost use Rattle.std.specs.Prelude.{◌≡◌, ◌<◌, ◌≤◌, List, length, map, slice_get};
ghost use Rattle.std.specs.Prelude.{IfOk, IsSomeAnd};
ghost use Rattle.keyspace.specs.storage.Fields.{txn_fields};
ghost use Rattle.keyspace.specs.storage.Tables.{txns_of_tables, AreTables};
ghost use Rattle.keyspace.specs.declared.batch.TheConstants.{MAX_TXNS};
ghost use Rattle.keyspace.specs.declared.txn.Txn.{Txn};
ghost use Rattle.serial.specs.Shards.{shards};
ghost use Rattle.shards.specs.Built.{IsBuilt};
ghost use Rattle.shards.specs.Clips.{IsClipped};
ghost use Rattle.shards.specs.Reach.{shard_at};

use crate::clipped::Clipped;
use crate::shard_ends::ShardEnds;
use crate::shard_tables::ShardTables;
use crate::split_points::SplitPoints;
use keyspace::{Batch, Tables, UnorderedBatch};
use std::alloc::{AllocError, Global};

/// Clips the batch to one shard, as [`clip`](crate::clip) does, and orders only the ranges of the
/// clip. The clip keeps the buffer of the batch, and copies no key but the ends of the shard to it.
/// Returns an error if memory is refused, or if the buffer has more than 4 GiB.
pub fn clip_in_place(
    alloc: Global,
    batch: UnorderedBatch,
    points: &SplitPoints,
    shard: usize,
) -> Result<Clipped, AllocError>
    requires within { shard < length (shards points.now) }
    ensures clip { IfOk result (λ clipped. IsSomeAnd (slice_get (shards points.now) shard)
        (λ shard. IsClipped shard batch clipped)) }
{
    let previous = batch.previous;
    let version = batch.version;
    let received = batch.received;
    let tables = clip_tables(alloc, batch.into_tables(), points, shard)?;
    let (txns, reads) = tables.into_txns(alloc)?;
    Ok(Clipped {
        batch: Batch::new(previous, version, received, txns),
        reads,
    })
}

// Clips the transactions of the tables to the shard.
fn clip_tables(
    alloc: Global,
    own: Tables,
    points: &SplitPoints,
    shard: usize,
) -> Result<ShardTables, AllocError>
    requires within { shard < length (shards points.now) }
    requires tables { AreTables own.buffer.items own.spans.items own.rows.items }
    requires txns { (txns : List Txn)
        × (txns_of_tables own.buffer.items own.spans.items own.rows.items ≡ map txn_fields txns)
        × (length txns ≤ MAX_TXNS) }
    ensures built { IfOk result (λ tables. (txns : List Txn)
        → txns_of_tables own.buffer.items own.spans.items own.rows.items ≡ map txn_fields txns
        → length txns ≤ MAX_TXNS
        → IsBuilt (shard_at points.now shard) shard txns tables) }
{
    let Tables {
        buffer,
        spans,
        rows,
    } = own;
    let ends = ShardEnds::of(points, shard);
    let mut tables = ShardTables::new(alloc, buffer, points, shard)?;
    tables.keep_all(&ends, &rows, &spans)?;
    Ok(tables)
}
