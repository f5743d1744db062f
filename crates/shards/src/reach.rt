//! To which shards a range goes.

ghost use Rattle.std.specs.Prelude.{◌≡◌, IfOk};
ghost use Rattle.std.specs.List.{AllZip};
ghost use Rattle.keyspace.specs.storage.BatchRanges.{ranges_in};
ghost use Rattle.shards.specs.Reach.{is_reached, IsReach};

use crate::split_points::SplitPoints;
use keys::RangeRef;
use keyspace::{Batch, RangesRef};
use std::alloc::{AllocError, Global};

/// The shards to which a range goes, by their numbers: those from the first one to the last. There
/// are at most 64.
#[derive(Clone, Copy, Debug, PartialEq, Eq)]
pub(crate) struct Reach {
    pub first: u8,
    pub last: u8,
}

impl Reach {
    // Finds the shards to which the range goes.
    fn of(points: &SplitPoints, range: &RangeRef<'_>) -> Self
        ensures reach { IsReach points.now range.now result }
    {
        let first = points.shard_of(range.begin());
        let last = points.last_before(first, range.end());
        Reach {
            first: first as u8,
            last: last as u8,
        }
    }

    /// Returns `true` if the range goes to the shard.
    pub fn includes(&self, shard: usize) -> bool
        ensures reached { result ≡ is_reached self.now shard }
    {
        usize::from(self.first) <= shard && shard <= usize::from(self.last)
    }
}

/// Finds for each range of the batch the shards to which it goes. The index of a range is that in
/// `ranges` of its transactions.
pub(crate) fn reaches_of(
    alloc: Global,
    batch: &Batch,
    points: &SplitPoints,
) -> Result<Vec<Reach>, AllocError>
    ensures reaches { IfOk result (λ reaches.
        AllZip (IsReach points.now) (ranges_in batch.now.txns) reaches.items) }
{
    reaches_in(alloc, &batch.txns.ranges(), points)
}

// Finds for each of the ranges the shards to which it goes, in one pass over their keys.
fn reaches_in(
    alloc: Global,
    ranges: &RangesRef<'_>,
    points: &SplitPoints,
) -> Result<Vec<Reach>, AllocError>
    ensures reaches { IfOk result (λ reaches.
        AllZip (IsReach points.now) ranges.now reaches.items) }
{
    let mut reaches = Vec::with_capacity(alloc, ranges.len())?;
    for index in 0..ranges.len() {
        reaches.push(Reach::of(points, &ranges.get(index)))?;
    }
    Ok(reaches)
}
