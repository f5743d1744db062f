//! The union of the ranges that a batch writes: `ConflictBatch::combineWriteConflictRanges` of
//! FoundationDB 7.1.

ghost use Rattle.std.specs.Prelude.{◌≡◌, ◌<◌, ◌++◌, ◌∷◌, ℕ, List, [], length, All, IsTrue, OnOk};
ghost use Rattle.std.specs.Prelude.{Some, slice_get};
ghost use Rattle.keys.specs.Key.{IsAtMost, IsBefore};
ghost use Rattle.keys.specs.Range.{IsEmpty};
ghost use Rattle.keys.specs.GapRuns.{run_or_none};
ghost use Rattle.keys.specs.Singles.{AreRankedFor};
ghost use Rattle.keys.specs.declared.range.Range.{Range};
ghost use Rattle.stepmap.specs.Uniting.{Unites};
ghost use Rattle.conflict.specs.Union.{marked_ranges, AreSpanned, AreUnited, HaveRuns};
ghost use Rattle.conflict.specs.Union.{HaveWrittenInOrder};

use keys::{GapRuns, RangeList};
use std::alloc::{AllocError, Global};
use std::marker::Model;

/// A united range, from the begin of the one range to the end of the other.
#[derive(Clone, Copy, Debug)]
pub struct UnitedSpan {
    /// The index of the range that it begins with.
    pub begin: usize,
    /// The index of the range that it ends with.
    pub end: usize,
}

/// The ranges that a batch writes, united. Contracts see the list of the spans. The vector is kept
/// for the next batch.
#[derive(Debug, Drop)]
pub struct Union {
    spans: Vec<UnitedSpan>,
}

impl Model for Union {
    ghost use Rattle.std.specs.Prelude.{List};
    ghost use Rattle.conflict.specs.declared.union.UnitedSpan.{UnitedSpan};

    ghost Value = { List UnitedSpan };

    ghost view = { λ u. u.spans.items };
}

impl Union {
    /// Creates an empty union, without taking memory.
    pub fn new(alloc: Global) -> Self
        ensures empty { result ≡ [] }
    {
        Union {
            spans: Vec::new(alloc),
        }
    }

    /// Replaces the spans by those of ranges that unite the ones marked as written. `order` lists
    /// ranges that aren't empty in the order of their begins, and all of these that are marked. The
    /// ranks are those of all ranges, of which some may be ranked as empty ones. After an error the
    /// spans are unspecified, and the next call starts anew.
    pub fn gather<L: RangeList>(
        &mut self,
        ranges: &L,
        ranks: &GapRuns,
        order: &[u32],
        written: &[bool],
    ) -> Result<(), AllocError>
        requires ranked { (checked : List Range)
            × AreRankedFor checked (L.ranges ranges.now) ranks.now }
        requires in_order { HaveWrittenInOrder (L.ranges ranges.now) written.now order.now }
        requires count { length written.now ≡ length (L.ranges ranges.now) }
        ensures united { OnOk result ((united : List Range)
            × AreSpanned (L.ranges ranges.now) self.new united
            × Unites united (marked_ranges written.now (L.ranges ranges.now))) }
    {
        let runs = ranks.runs();
        self.spans.clear();
        for index in order {
            let index = *index as usize;
            if written[index] {
                self.add(ranges, runs, index)?;
            }
        }
        Ok(())
    }

    // Adds the range at the index, which doesn't begin before any that was added. It is united with
    // the last span unless it begins after its end. Most often the runs show that it does, so that
    // no byte of a key is read.
    fn add<L: RangeList>(
        &mut self,
        ranges: &L,
        runs: &[(u32, u32)],
        index: usize,
    ) -> Result<(), AllocError>
        requires runs { HaveRuns (L.ranges ranges.now) runs.now }
        requires within { index < length (L.ranges ranges.now) }
        requires spanned { (united : List Range)
            × AreSpanned (L.ranges ranges.now) self.old united }
        ensures added { OnOk result ((range : Range) (added : List Range)
            → slice_get (L.ranges ranges.now) index ≡ Some range → ¬ IsEmpty range
            → All (λ earlier. IsAtMost earlier.begin range.begin) added
            → AreUnited (L.ranges ranges.now) self.old added
            → AreUnited (L.ranges ranges.now) self.new (added ++ range ∷ [])) }
    {
        if let Some(last) = self.spans.last_mut() {
            if !are_known_apart(runs[last.end], runs[index]) {
                let range = ranges.range(index);
                let end = ranges.range(last.end).end();
                if range.begin().cmp(end).is_le() {
                    if end.cmp(range.end()).is_lt() {
                        last.end = index;
                    }
                    return Ok(());
                }
            }
        }
        self.spans.push(UnitedSpan {
            begin: index,
            end: index,
        })?;
        Ok(())
    }

    /// Returns the spans, in the order of the ranges.
    pub fn spans(&self) -> &[UnitedSpan]
        ensures spans { result.now ≡ self.now }
    {
        &self.spans
    }
}

// Returns whether the runs show that the first range ends before the second one begins: a begin is
// between. If it is false they may be apart, too.
fn are_known_apart(first: (u32, u32), second: (u32, u32)) -> bool
    ensures filled { IsTrue result → (0 < first.1) × (0 < second.0) }
    ensures apart { IsTrue result → (keys : List (List ℕ)) (a b : Range)
        → first ≡ run_or_none keys a → second ≡ run_or_none keys b
        → IsBefore a.end b.begin }
{
    // The run of an empty range ends at 0.
    0 < first.1 && first.1 < second.0
}
