//! Split points that spread a load evenly, by a sample of batches.

ghost use Rattle.std.specs.Prelude.{◌≡◌, ◌↔◌, ◌⊎◌, ◌+◌, ◌<◌, ◌≤◌, ◌++◌, [], All, length, map};
ghost use Rattle.std.specs.Prelude.{IfOk, IsErrOf, OnOk, IsPermutation, IsSorted};
ghost use Rattle.std.specs.Ordering.{nat_cmp};
ghost use Rattle.std.specs.Cmp.Lexicographic.{slice_cmp};
ghost use Rattle.keys.specs.declared.key.TheConstants.{MAX_KEY_LENGTH};
ghost use Rattle.serial.specs.Shards.{IsRising};
ghost use Rattle.shards.specs.Balanced.{begins_in, begins_of, IsBalanced};
ghost use Rattle.shards.specs.Picking.{keys_of, IsRestAfter};

use crate::error::BalanceError;
use crate::split_points::{MAX_SPLIT_POINTS, SplitPoints};
use keys::Key;
use keyspace::Batch;
use std::alloc::{AllocError, Global};

/// Computes split points that spread the read and write ranges of a sample evenly over this many
/// shards. A range counts in the shard of its begin key. Each split point is such a key, so there
/// are fewer shards if the sample has too few different ones.
///
/// Returns [`BalanceError::ShardCount`] unless there are 1 to 64 shards, else
/// [`BalanceError::Memory`] if memory is refused. Sorts the begin keys of the sample.
pub fn balanced(
    alloc: Global,
    sample: &[&Batch],
    shard_count: usize,
) -> Result<SplitPoints, BalanceError>
    ensures balanced { IfOk result
        (IsBalanced shard_count (begins_of (map (λ batch. batch.now) sample.now))) }
    ensures shard_count { IsErrOf result BalanceError.ShardCount
        ↔ ((shard_count ≡ 0) ⊎ (MAX_SPLIT_POINTS + 1 < shard_count)) }
{
    if shard_count == 0 || shard_count > MAX_SPLIT_POINTS + 1 {
        return Err(BalanceError::ShardCount);
    }
    let begins = sorted_begins(alloc, sample)?;
    let points = pick_points(alloc, &begins, shard_count)?;
    Ok(SplitPoints::new(points))
}

// Returns the begin keys of the ranges of the sample in order.
fn sorted_begins<'a>(alloc: Global, sample: &[&'a Batch]) -> Result<Vec<&'a [u8]>, AllocError>
    ensures same { IfOk result (λ begins. IsPermutation
        (begins_of (map (λ batch. batch.now) sample.now)) (keys_of begins.items)) }
    ensures sorted { IfOk result
        (λ begins. IsSorted (λ a b. slice_cmp nat_cmp a.now b.now) begins.items) }
{
    let mut begins = Vec::new(alloc);
    for &batch in sample {
        put_begins(&mut begins, batch)?;
    }
    begins.sort_unstable();
    Ok(begins)
}

// Appends the begin keys of the ranges of a batch.
fn put_begins<'a>(begins: &mut Vec<&'a [u8]>, batch: &'a Batch) -> Result<(), AllocError>
    ensures put { OnOk result (keys_of begins.new.items
        ≡ keys_of begins.old.items ++ begins_in batch.now) }
{
    let ranges = batch.txns.ranges();
    for index in 0..ranges.len() {
        begins.push(ranges.get(index).begin())?;
    }
    Ok(())
}

// Picks split points from keys in order. At each point, the remaining shards share the keys after
// it evenly.
fn pick_points(alloc: Global, begins: &[&[u8]], shard_count: usize) -> Result<Vec<Key>, AllocError>
    requires some { 0 < shard_count }
    requires sorted { IsSorted (λ a b. slice_cmp nat_cmp a.now b.now) begins.now }
    requires short { All (λ key. length key.now ≤ MAX_KEY_LENGTH) begins.now }
    ensures rising { IfOk result (λ points. IsRising [] points.items) }
    ensures balanced { IfOk result
        (λ points. IsBalanced shard_count (keys_of begins.now) points.items) }
{
    let mut points = Vec::new(alloc);
    let mut rest = keys_after(begins, &[]);
    for done in 0..shard_count - 1 {
        let part = rest.len() / (shard_count - done);
        if part < rest.len() {
            let point = rest[part];
            points.push(Key::copied(alloc, point)?)?;
            rest = keys_after(rest, point);
        }
    }
    Ok(points)
}

// Returns those of the keys, which are in order, that come after this one.
fn keys_after<'a, 'b>(keys: &'a [&'b [u8]], key: &[u8]) -> &'a [&'b [u8]]
    requires sorted { IsSorted (λ a b. slice_cmp nat_cmp a.now b.now) keys.now }
    ensures sorted { IsSorted (λ a b. slice_cmp nat_cmp a.now b.now) result.now }
    ensures rest { IsRestAfter key.now (keys_of keys.now) (keys_of result.now) }
{
    let first = keys.partition_point(|other| (*other).cmp(key).is_le());
    &keys[first..]
}
