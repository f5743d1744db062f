//! Split points by the first batches of files.

ghost use Rattle.std.specs.Prelude.{◌≡◌, ◌≤◌, ◌+◌, ◌++◌, IfOk, List, OnOk, flat_map, map};
ghost use Rattle.std.specs.Prelude.{vec_items, vec_len};
ghost use Rattle.std.specs.List.{AllZip};
ghost use Rattle.keyspace.specs.declared.batch.Batch.{Batch as BatchValue};
ghost use Rattle.shards.specs.Balanced.{begins_of, IsBalanced};
ghost use Rattle.shards.specs.declared.split_points.TheConstants.{MAX_SPLIT_POINTS};
ghost use Rattle.replay_shards.specs.Sampling.{AreFirstOf};

use keyspace::Batch;
use shards::{BalanceError, SplitPoints, balanced};
use std::alloc::{AllocError, Global};
use wire::{Source, read_frames};

/// At most this many ranges are sampled, not counting the last batch of each file.
pub const SAMPLE: usize = 4_096;

/// Computes split points that spread the first batches of these readers evenly over this many
/// shards, as [`balanced`] does. Each reader gives the same part of the sample. There are fewer
/// shards if the sample has too few different begin keys. A fault ends the sample of its reader.
pub fn points_of_sample<S: Source + Drop>(
    alloc: Global,
    readers: Vec<S>,
    shard_count: usize,
) -> Result<SplitPoints, AllocError>
    requires some { 1 ≤ shard_count }
    requires few { shard_count ≤ MAX_SPLIT_POINTS + 1 }
    requires readers { 1 ≤ vec_len readers }
    ensures balanced { IfOk result (λ points. (samples : List (List BatchValue))
        × AllZip AreFirstOf (map S.remaining readers.items) samples
        × IsBalanced shard_count (begins_of (flat_map (λ own. own) samples)) points) }
{
    let most = SAMPLE / readers.len();
    let samples = samples_each(alloc, readers, most)?;
    let refs = refs_of(alloc, &samples)?;
    match balanced(alloc, &refs, shard_count) {
        Ok(points) => Ok(points),
        // The number of shards is within its range.
        Err(BalanceError::ShardCount | BalanceError::Memory) => Err(AllocError),
    }
}

// Returns the first batches of each reader.
fn samples_each<S: Source + Drop>(
    alloc: Global,
    readers: Vec<S>,
    most: usize,
) -> Result<Vec<Vec<Batch>>, AllocError>
    ensures samples { IfOk result (λ samples.
        AllZip AreFirstOf (map S.remaining readers.items) (map vec_items samples.items)) }
{
    let mut samples = Vec::with_capacity(alloc, readers.len())?;
    for reader in readers {
        samples.push(first_batches(alloc, reader, most)?)?;
    }
    Ok(samples)
}

// Returns the first batches, until they have enough ranges or the frames end.
fn first_batches<S: Source + Drop>(
    alloc: Global,
    reader: S,
    most: usize,
) -> Result<Vec<Batch>, AllocError>
    ensures first { IfOk result (λ batches. AreFirstOf (S.remaining reader) batches.items) }
{
    let mut frames = read_frames(alloc, reader);
    let mut batches = Vec::new(alloc);
    let mut count: usize = 0;
    while count < most {
        let Ok(Some(batch)) = frames.next() else {
            return Ok(batches);
        };
        count = count
            .saturating_add(batch.txns.ranges().len())
            .saturating_add(1);
        batches.push(batch)?;
    }
    Ok(batches)
}

fn refs_of(alloc: Global, samples: &[Vec<Batch>]) -> Result<Vec<&Batch>, AllocError>
    ensures refs { IfOk result (λ refs. map (λ batch. batch.now) refs.items
        ≡ flat_map (λ own. own.items) samples.now) }
{
    let mut refs = Vec::new(alloc);
    for own in samples {
        put_refs(own, &mut refs)?;
    }
    Ok(refs)
}

fn put_refs<'a>(batches: &'a [Batch], refs: &mut Vec<&'a Batch>) -> Result<(), AllocError>
    ensures refs { OnOk result (map (λ batch. batch.now) refs.new.items
        ≡ map (λ batch. batch.now) refs.old.items ++ batches.now) }
{
    for batch in batches {
        refs.push(batch)?;
    }
    Ok(())
}
