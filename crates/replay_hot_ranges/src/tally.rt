//! How many transactions were counted for each range.

ghost use Rattle.std.specs.Prelude.{◌≡◌, ◌<◌, ◌+◌, ◌==◌, ◌&&◌, ℕ, false, IfOk, OnOk, map, not};
ghost use Rattle.std.specs.Prelude.{if◌then◌else◌};
ghost use Rattle.replay_hot_ranges.specs.Counts.{Ends, has_ends};

use crate::hot_range::HotRange;
use keys::{Key, RangeRef};
use std::alloc::{AllocError, Global};
use std::collections::BTreeMap;

/// The count of each range that has one, by its begin and its end.
#[derive(Debug, Drop)]
pub struct RangeTally {
    counts: BTreeMap<(Key, Key), Count>,
}

// The count of a range.
#[derive(Clone, Copy, Debug)]
struct Count {
    conflict_count: usize,
    // the number of the transaction that was counted last
    last: usize,
    ghost some: { 0 < conflict_count },
}

impl Count {
    ghost use Rattle.replay_hot_ranges.specs.RangeTally.{conflicts_in, is_last_in};

    // Returns the count of a range once the transaction of this number is counted, which one that
    // was counted last isn't again. A count beyond 64 bits is an error.
    fn after(before: Option<Count>, txn: usize) -> Result<Self, AllocError>
        ensures conflicts { IfOk result (λ count. count.conflict_count ≡ (if is_last_in before txn
            then conflicts_in before else conflicts_in before + 1)) }
        ensures last { IfOk result (λ count. count.last ≡ txn) }
    {
        let Some(count) = before else {
            return Ok(Count {
                conflict_count: 1,
                last: txn,
            });
        };
        if count.last == txn {
            return Ok(count);
        }
        match count.conflict_count.checked_add(1) {
            Some(conflict_count) => Ok(Count {
                conflict_count,
                last: txn,
            }),
            None => Err(AllocError),
        }
    }
}

impl RangeTally {
    ghost use Rattle.replay_hot_ranges.specs.RangeTally.{conflicts_at, is_last, rows_of};
    ghost use Rattle.replay_hot_ranges.specs.Top.{ends_cmp, row_of};
    ghost use Rattle.std.specs.BTreeMap.{IsOrdered};

    /// Creates a tally without ranges, without taking memory.
    pub fn new(alloc: Global) -> Self
        ensures none { (ends : Ends) → conflicts_at result ends ≡ 0 }
        ensures no_last { (ends : Ends) (txn : ℕ) → is_last result txn ends ≡ false }
    {
        RangeTally {
            counts: BTreeMap::new(alloc),
        }
    }

    /// Counts the transaction of this number for the range. If it was counted last, it isn't
    /// counted again. An error is refused memory, or a count beyond 64 bits.
    pub fn note(
        &mut self,
        alloc: Global,
        txn: usize,
        range: &RangeRef<'_>,
    ) -> Result<(), AllocError>
        ensures conflicts { OnOk result ((ends : Ends) → conflicts_at self.new ends
            ≡ (if has_ends ends range.now && not (is_last self.old txn ends)
            then conflicts_at self.old ends + 1 else conflicts_at self.old ends)) }
        ensures last { OnOk result ((ends : Ends) (other : ℕ) → is_last self.new other ends
            ≡ (if has_ends ends range.now then txn == other else is_last self.old other ends)) }
    {
        let range = range.to_range(alloc)?;
        let key = (range.begin, range.end);
        let count = Count::after(self.counts.get(&key).copied(), txn)?;
        self.counts.insert(key, count)?;
        Ok(())
    }

    /// Returns all ranges with their counts, in the order of their begins, and then of their ends.
    pub fn ranges(&self, alloc: Global) -> Result<Vec<HotRange<'_>>, AllocError>
        ensures all { IfOk result (λ ranges. map row_of ranges.items ≡ rows_of self.now) }
        ensures ordered { IsOrdered ends_cmp self.now.counts }
    {
        let mut ranges = Vec::new(alloc);
        for (key, count) in self.counts.iter() {
            ranges.push(HotRange {
                begin: key.0.as_bytes(),
                end: key.1.as_bytes(),
                conflicts: count.conflict_count,
            })?;
        }
        Ok(ranges)
    }
}
