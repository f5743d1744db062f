//! How many begins lie below the end of each range.

ghost use Rattle.std.specs.Prelude.{◌≡◌, ◌<◌, ◌≤◌, ℕ, List, Some, length, take, drop, slice_get};
ghost use Rattle.std.specs.Prelude.{All, IsTrue};
ghost use Rattle.keys.specs.Hash.{AreHashesOf};
ghost use Rattle.keys.specs.Key.{is_before, IsBefore, IsAtMost};
ghost use Rattle.keys.specs.Sorting.{begin_at, indices_of, AreHeadedAfter, AreInBeginOrder};
ghost use Rattle.keys.specs.Numbering.{begins_below_end, AreNumbered, HasRun, HeadsDetermine};
ghost use Rattle.keys.specs.Numbering.{IsEndHead};
ghost use Rattle.keys.specs.Numbering.{IsFilledAt, OthersStay};
ghost use Rattle.keys.specs.declared.gap_runs.TheConstants.{MAX_RANKED};

use super::begin_sort::HeadedIndex;
use super::{begin_in, end_in};
use crate::prefix::head_after;
use crate::range_list::RangeList;

/// Moves the end of each run listed to the number of the first begin that isn't below the end of
/// the range.
pub fn reach_ends<L: RangeList>(
    runs: &mut [(u32, u32)],
    sorted: &[HeadedIndex],
    begin_count: u32,
    ranges: &L,
    prefix: &[u8],
    hashes: &[Option<u32>],
)
    requires sorted { AreInBeginOrder (L.ranges ranges.now) sorted.now }
    requires headed { AreHeadedAfter (L.ranges ranges.now) prefix.now sorted.now }
    requires filled { All (IsFilledAt (L.ranges ranges.now)) (indices_of sorted.now) }
    requires few { length sorted.now ≤ MAX_RANKED }
    requires within { All (λ h. h.index < length runs.old) sorted.now }
    requires hashes { AreHashesOf (L.ranges ranges.now) hashes.now }
    ensures reached { (keys : List (List ℕ))
        → AreNumbered (L.ranges ranges.now) sorted.now keys begin_count runs.old
        → All (HasRun (L.ranges ranges.now) keys runs.new) (indices_of sorted.now) }
    ensures others { OthersStay sorted.now runs.old runs.new }
    ensures as_many { length runs.new ≡ length runs.old }
{
    for (place, headed) in sorted.iter().enumerate() {
        // A single key ends before the next other begin, as its run says already.
        if has_hash(hashes, headed.index) {
            continue;
        }
        let end = end_in(ranges, headed.index);
        let first = place + 1 + count_below(end, prefix, &sorted[place + 1..], ranges);
        let reached = match sorted.get(first) {
            Some(next) => runs[next.index].0,
            None => begin_count,
        };
        runs[headed.index].1 = reached;
    }
}

// Returns whether there is a hash at the index.
fn has_hash(hashes: &[Option<u32>], index: usize) -> bool
    ensures hash { IsTrue result → (hash : ℕ) × (slice_get hashes.now index ≡ Some (Some hash)) }
{
    match hashes.get(index) {
        Some(hash) => hash.is_some(),
        None => false,
    }
}

// Returns how many of the ranges begin below the end.
fn count_below<L: RangeList>(end: &[u8], prefix: &[u8], sorted: &[HeadedIndex], ranges: &L) -> usize
    requires sorted { AreInBeginOrder (L.ranges ranges.now) sorted.now }
    requires determine { (head : ℕ) → IsEndHead prefix.now end.now head
        → All (HeadsDetermine (L.ranges ranges.now) end.now head) sorted.now }
    requires few { length sorted.now ≤ MAX_RANKED }
    ensures within { result ≤ length sorted.now }
    ensures below { All (λ h. IsBefore (begin_at (L.ranges ranges.now) h.index) end.now)
        (take result sorted.now) }
    ensures following { All (λ h. IsAtMost end.now (begin_at (L.ranges ranges.now) h.index))
        (drop result sorted.now) }
{
    if sorted.is_empty() {
        return 0;
    }
    // Most ranges end before the next begin, and a look at that is cheaper than the head of the
    // end.
    if !begins_below(end, &sorted[0], ranges) {
        return 0;
    }
    gallop(end, end_head(end, prefix), sorted, ranges)
}

// Returns the head of the end after the prefix, or the greatest one if the end doesn't begin with
// the prefix.
fn end_head(end: &[u8], prefix: &[u8]) -> u64
    ensures head { IsEndHead prefix.now end.now result }
{
    if end.len() < prefix.len() {
        return u64::MAX;
    }
    let front = &end[..prefix.len()];
    if front == prefix {
        head_after(end, prefix.len())
    } else {
        u64::MAX
    }
}

// Returns how many of the ranges begin below the end of this head: by steps that double, and then
// between the last two.
fn gallop<L: RangeList>(end: &[u8], head: u64, sorted: &[HeadedIndex], ranges: &L) -> usize
    requires sorted { AreInBeginOrder (L.ranges ranges.now) sorted.now }
    requires determine { All (HeadsDetermine (L.ranges ranges.now) end.now head) sorted.now }
    requires few { length sorted.now ≤ MAX_RANKED }
    ensures within { result ≤ length sorted.now }
    ensures below { All (λ h. IsBefore (begin_at (L.ranges ranges.now) h.index) end.now)
        (take result sorted.now) }
    ensures following { All (λ h. IsAtMost end.now (begin_at (L.ranges ranges.now) h.index))
        (drop result sorted.now) }
{
    let mut count = 0;
    let mut step = 1;
    while step <= sorted.len() - count
        && is_begin_below(end, head, &sorted[count + step - 1], ranges)
    {
        count += step;
        step *= 2;
    }
    let last = sorted.len().min(count + step - 1);
    count + sorted[count..last].partition_point(|next| is_begin_below(end, head, next, ranges))
}

// Returns whether the range begins below the end of this head. Its key is looked at only where its
// head is the same.
fn is_begin_below<L: RangeList>(end: &[u8], head: u64, headed: &HeadedIndex, ranges: &L) -> bool
    ensures below { result ≡ begins_below_end (L.ranges ranges.now) end.now head headed.now }
{
    if headed.head == head {
        begins_below(end, headed, ranges)
    } else {
        headed.head < head
    }
}

// Returns whether the range begins below the end.
fn begins_below<L: RangeList>(end: &[u8], headed: &HeadedIndex, ranges: &L) -> bool
    ensures below { result ≡ is_before (begin_at (L.ranges ranges.now) headed.now.index) end.now }
{
    begin_in(ranges, headed.index).cmp(end).is_lt()
}
