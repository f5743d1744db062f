//! The ranges with the greatest counts.

ghost use Rattle.std.specs.Prelude.{IfOk};
ghost use Rattle.replay_hot_ranges.specs.RangeTally.{conflicts_at};
ghost use Rattle.replay_hot_ranges.specs.Top.{IsTop};

use crate::hot_range::HotRange;
use crate::tally::RangeTally;
use std::alloc::{AllocError, Global};

/// Returns the ranges with the greatest counts, at most this many, the greatest first. Equal counts
/// are in the order of the begins, and then of the ends.
pub fn top_of(
    alloc: Global,
    tally: &RangeTally,
    most: usize,
) -> Result<Vec<HotRange<'_>>, AllocError>
    ensures top { IfOk result (λ top. IsTop (conflicts_at tally.now) most top.items) }
{
    let mut ranges = tally.ranges(alloc)?;
    ranges.sort_by(|left, right| right.conflicts.cmp(&left.conflicts))?;
    ranges.truncate(most);
    Ok(ranges)
}
