//! Batches that are read completely, and split points by them.

ghost use Rattle.std.specs.Prelude.{◌≡◌, ◌<◌, List, ℕ, IfErr, IfOk, OnOk, map};
ghost use Rattle.shards.specs.Balanced.{IsBalanced, begins_of};
ghost use Rattle.batches_tasks.specs.Counting.{Collects, StopsAfterFrames};
ghost use Rattle.batches_tasks.specs.declared.failure.Failure.TheVariants.{Read};
ghost use Rattle.batches_tasks.specs.Points.{point_lines};

use crate::failure::Failure;
use crate::frame::next_batch;
use crate::points::lines_of_points;
use keyspace::Batch;
use shards::{BalanceError, balanced};
use std::alloc::{AllocError, Global};
use wire::Source;

/// Reads frames of batches to the end of the input, and adds the batches to others.
pub fn read_batches<R: Source>(
    alloc: Global,
    reader: &mut R,
    batches: &mut Vec<Batch>,
) -> Result<(), Failure>
    ensures batches { OnOk result (Collects (R.remaining reader.old) batches.old.items
        batches.new.items) }
    ensures refused { IfErr result (StopsAfterFrames (R.remaining reader.old)) }
    ensures read { IfErr result (λ e. e ≡ Read → R.failures reader.old < R.failures reader.new) }
{
    let mut frame = Vec::new(alloc);
    for number in 1..u64::MAX {
        let Some(batch) = next_batch(alloc, number, reader, &mut frame)? else {
            return Ok(());
        };
        batches.push(batch)?;
    }
    // The number of one frame more wouldn't fit. No input is so long.
    Err(Failure::Memory)
}

/// Returns the lines of split points that spread the batches evenly over this many shards. There
/// are fewer if the batches have too few different keys.
pub fn split_points(
    alloc: Global,
    batches: &[Batch],
    shard_count: usize,
) -> Result<Vec<u8>, Failure>
    ensures balanced { IfOk result (λ lines. (points : List (List ℕ))
        × IsBalanced shard_count (begins_of batches.now) points
        × (lines.items ≡ point_lines points)) }
{
    let sample = refs_of(alloc, batches)?;
    match balanced(alloc, &sample, shard_count) {
        Ok(points) => Ok(lines_of_points(alloc, &points)?),
        Err(BalanceError::ShardCount) => Err(Failure::Resolvers),
        Err(BalanceError::Memory) => Err(Failure::Memory),
    }
}

fn refs_of(alloc: Global, batches: &[Batch]) -> Result<Vec<&Batch>, AllocError>
    ensures same { IfOk result (λ refs. map (λ batch. batch.now) refs.items ≡ batches.now) }
{
    let mut refs = Vec::with_capacity(alloc, batches.len())?;
    for batch in batches {
        refs.push(batch)?;
    }
    Ok(refs)
}
