//! The numbers of begins.

ghost use Rattle.std.specs.Prelude.{◌≡◌, ◌↔◌, ◌<◌, ◌≤◌, ℕ, List, length, All, IsTrue};
ghost use Rattle.keys.specs.Sorting.{begin_at, HaveSameHeads, AreInBeginOrder};
ghost use Rattle.keys.specs.Numbering.{AreNumbered, OthersStay};
ghost use Rattle.keys.specs.declared.gap_runs.TheConstants.{MAX_RANKED};

use super::begin_in;
use super::begin_sort::HeadedIndex;
use crate::range_list::RangeList;

/// Sets the run of each range listed to the number of its begin and the one after it, and returns
/// how many begins there are. Ranges with the same begin get the same number.
pub fn number_begins<L: RangeList>(
    runs: &mut [(u32, u32)],
    sorted: &[HeadedIndex],
    ranges: &L,
) -> u32
    requires sorted { AreInBeginOrder (L.ranges ranges.now) sorted.now }
    requires equal { HaveSameHeads (L.ranges ranges.now) sorted.now }
    requires few { length sorted.now ≤ MAX_RANKED }
    requires within { All (λ h. h.index < length runs.old) sorted.now }
    ensures numbered { (keys : List (List ℕ))
        × AreNumbered (L.ranges ranges.now) sorted.now keys result runs.new }
    ensures others { OthersStay sorted.now runs.old runs.new }
    ensures as_many { length runs.new ≡ length runs.old }
{
    let mut begin_count = 0;
    for (place, headed) in sorted.iter().enumerate() {
        if place == 0 || !have_same_begin(&sorted[place - 1], headed, ranges) {
            begin_count += 1;
        }
        runs[headed.index] = (begin_count - 1, begin_count);
    }
    begin_count
}

// Returns whether two ranges have the same begin. Keys are looked at only where the heads are the
// same.
fn have_same_begin<L: RangeList>(a: &HeadedIndex, b: &HeadedIndex, ranges: &L) -> bool
    requires equal { begin_at (L.ranges ranges.now) a.now.index
        ≡ begin_at (L.ranges ranges.now) b.now.index
        → a.now.head ≡ b.now.head }
    ensures same { IsTrue result
        ↔ (begin_at (L.ranges ranges.now) a.now.index
        ≡ begin_at (L.ranges ranges.now) b.now.index) }
{
    a.head == b.head && begin_in(ranges, a.index) == begin_in(ranges, b.index)
}
