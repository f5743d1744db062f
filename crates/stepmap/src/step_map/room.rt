//! The room for writes: a complete round is swept if there is none, and memory is taken.

ghost use Rattle.std.specs.Prelude.{◌≡◌, ℕ, ◌+◌, ◌*◌, ◌<◌, ◌≤◌, ◌≤ℤ◌, ◌↔◌, nat_le, List, []};
ghost use Rattle.std.specs.Prelude.{length, IsTrue, OnOk, OnErr};
ghost use Rattle.arena.specs.Arena.{HasRoomFor as HasSlotsFor};
ghost use Rattle.stepmap.specs.Filter.{bound};
ghost use Rattle.keyspace.specs.Writes.{Write};
ghost use Rattle.stepmap.specs.StepMap.{AreSteps};
ghost use Rattle.stepmap.specs.Sweeping.{at_front};
ghost use Rattle.stepmap.specs.Limit.{HasRoomFor, after_round, made_room, unexpired_all};
ghost use Rattle.stepmap.specs.Rooted.{Rooted};
ghost use Rattle.stepmap.specs.Counting.{live_count};
ghost use Rattle.boundaries.specs.Stored.{spare_in, each_length};

use super::StepMap;
use crate::filter::Filter;
use boundaries::{Boundaries, KeyLengths};
use limits::MAX_LIMIT;
use std::alloc::AllocError;
use std::collections::VecDeque;

// So many cells of the filter there are at most while it has one for each boundary: 1.5 MiB.
const EARLY_CELLS: usize = 65_536;

impl StepMap {
    // Returns whether the boundaries, and two for each of `count` ranges, are within the limit.
    fn has_room_for(&self, ranges: usize) -> bool
        ensures room { result ≡ nat_le (length self.now.boundaries + 2 * ranges) self.now.limit }
        ensures steps { AreSteps self.now }
    {
        ranges <= (self.limit - self.boundaries.len()) / 2
    }

    /// Returns whether [`StepMap::prepare`] would have room for `ranges` ranges once the edge is
    /// raised to this one: whether they fit the limit, at the latest after a complete round of the
    /// sweep. Nothing changes, and it takes no memory. If there isn't room without a sweep, it
    /// looks at every boundary.
    pub fn can_make_room(&self, ranges: usize, edge: i64) -> bool
        requires late { self.now.edge ≤ℤ edge }
        ensures room { IsTrue result
            ↔ HasRoomFor ranges (made_room ranges (record self.now { edge = edge })) }
        ensures bound { ¬ IsTrue result → (ws : List Write) → Rooted self.now ws
            → self.now.limit < 1 + 2 * (live_count edge ws + ranges) }
    {
        if self.has_room_for(ranges) {
            return true;
        }
        self.has_room_after_round(ranges, edge)
    }

    // Returns whether the boundaries that a complete round would leave at this edge, and two for
    // each of `ranges` ranges, are within the limit.
    fn has_room_after_round(&self, ranges: usize, edge: i64) -> bool
        ensures room { result ≡ nat_le (length (unexpired_all edge self.now.boundaries)
            + 2 * ranges) self.now.limit }
    {
        ranges <= (self.limit - self.boundaries.count_unexpired(edge)) / 2
    }

    // Returns whether there is room for `count` ranges. If there is none, it sweeps a complete
    // round first.
    pub(super) fn make_room(&mut self, ranges: usize) -> bool
        ensures map { self.new ≡ made_room ranges self.old }
        ensures room { result ≡ nat_le (length self.new.boundaries + 2 * ranges) self.new.limit }
        ensures steps { AreSteps self.old }
    {
        if self.has_room_for(ranges) {
            return true;
        }
        self.sweep_round();
        self.has_room_for(ranges)
    }

    // Sweeps a complete round from the front, wherever the cursor is; the next sweep begins at the
    // front.
    fn sweep_round(&mut self)
        ensures map { self.new ≡ after_round self.old }
    {
        self.end_round();
        let count = self.boundaries.len();
        self.sweep(count);
    }

    // Ends the round under way, if there is one: the next sweep begins at the front.
    fn end_round(&mut self)
        ensures map { self.new ≡ at_front self.old }
    {
        self.round = None;
        self.cursor.clear();
    }

    // Takes the memory that writing ranges with keys of these lengths needs, instead of any taken
    // before.
    pub(super) fn reserve(&mut self, lengths: &[KeyLengths]) -> Result<(), AllocError>
        requires room { HasRoomFor (length lengths.now) self.old }
        ensures ok { OnOk result (self.new ≡ record self.old { ready = lengths.now }) }
        ensures err { OnErr result (self.new ≡ record self.old { ready = [] }) }
    {
        let reserved = take_memory(
            &mut self.boundaries,
            &mut self.filter,
            &mut self.ready,
            lengths,
        );
        if reserved.is_err() {
            self.ready.clear();
        }
        reserved
    }
}

// Takes the memory that writing ranges with keys of these lengths needs, and keeps these as those
// that are ready. The filter grows first, to a few cells for each boundary that there may be then.
fn take_memory(
    boundaries: &mut Boundaries,
    filter: &mut Filter,
    ready: &mut VecDeque<KeyLengths>,
    lengths: &[KeyLengths],
) -> Result<(), AllocError>
    requires few { length boundaries.old.boundaries + 2 * length lengths.now ≤ MAX_LIMIT }
    ensures ready { OnOk result (ready.new.items ≡ lengths.now) }
    ensures keys { OnOk result (HasSlotsFor (spare_in boundaries.new) (each_length lengths.now)) }
    ensures nodes { OnOk result (length boundaries.new.boundaries + 2 * length lengths.now
        ≤ boundaries.new.room) }
    ensures boundaries { boundaries.new.boundaries ≡ boundaries.old.boundaries }
    ensures room { boundaries.old.room ≤ boundaries.new.room }
    ensures bounds { (key : List ℕ) → bound filter.new key ≡ bound filter.old key }
{
    filter.reserve(cells_for(boundaries.len() + 2 * lengths.len()))?;
    keep(ready, lengths)?;
    boundaries.reserve(lengths)
}

// Returns the least number of cells that the filter should have for n boundaries: one for three of
// them, and one for each where these are few. A single key that is written makes two boundaries.
fn cells_for(boundaries: usize) -> usize {
    (boundaries / 3).max(boundaries.min(EARLY_CELLS))
}

// Replaces the kept lengths by these.
fn keep(kept: &mut VecDeque<KeyLengths>, lengths: &[KeyLengths]) -> Result<(), AllocError>
    ensures lengths { OnOk result (kept.new.items ≡ lengths.now) }
{
    kept.clear();
    for pair in lengths {
        kept.push_back(*pair)?;
    }
    Ok(())
}
