//! The step map: boundaries, a filter before them, an edge, and a limit.
ghost use Rattle.std.specs.Prelude.{◌≡◌, ℕ, ◌+◌, ◌*◌, ◌≤◌, ◌<◌, ℤ, negsuc, ◌≤ℤ◌, ◌↔◌};
ghost use Rattle.std.specs.Prelude.{List, [], length, None, Err};
ghost use Rattle.std.specs.Prelude.{IfOk, OnOk, OnErr, IfErr, IsTrue};
ghost use Rattle.std.specs.List.{AllZip};
ghost use Rattle.keys.specs.Key.{IsBytes};
ghost use Rattle.keys.specs.Range.{Holds, IsEmpty};
ghost use Rattle.limits.specs.declared.settings.TheConstants.{MAX_LIMIT};
ghost use Rattle.keyspace.specs.Writes.{Write};
ghost use Rattle.stepmap.specs.Boundary.{value_at, AreUpTo};
ghost use Rattle.stepmap.specs.StepMap.{new_map, AreSteps};
ghost use Rattle.stepmap.specs.Sweeping.{rest, round_edge, after_sweep};
ghost use Rattle.stepmap.specs.Limit.{HasRoomFor, made_room, after_prepare};
ghost use Rattle.stepmap.specs.Covers.{SameFrom, MapCovers, IsAbove};
ghost use Rattle.stepmap.specs.Rooted.{Ends, Rooted};
ghost use Rattle.stepmap.specs.Counting.{live_count};

mod lookup;
mod room;
mod trimmed_memory;
mod writing;

use crate::error::StepError;
use crate::filter::Filter;
use boundaries::{Boundaries, KeyLengths, QueryList, RangeQuery};
use keys::{MAX_KEY_LENGTH, Range};
use std::alloc::{AllocError, Global};
use std::collections::VecDeque;
use std::marker::Model;

/// How a sweep ended.
#[derive(Clone, Copy, Debug, PartialEq, Eq, Hash)]
pub enum SweepEnd {
    /// No boundary is left to look at: the next sweep begins a round at the front.
    Round,
    /// Some are left: the next sweep continues at the first of these.
    Stopped,
}

/// A step function from keys to versions, which remembers committed writes, with an edge: a version
/// below the edge says nothing. Contracts see its boundaries in key order, the empty key first;
/// there are at most as many as the limit.
#[derive(Debug, Drop)]
pub struct StepMap {
    boundaries: Boundaries,
    // What is written is noted there too.
    filter: Filter,
    edge: i64,
    // The lengths of the ranges that may be written next.
    ready: VecDeque<KeyLengths>,
    cursor: Vec<u8>,
    round: Option<i64>,
    limit: usize,
}

impl Model for StepMap {
    ghost use Rattle.std.specs.Prelude.{vec_capacity};
    ghost use Rattle.stepmap.specs.StepMap.{Steps};
    ghost use Rattle.stepmap.specs.Kept.{steps_of, IsKept};

    ghost Value = { Steps };

    ghost view = { λ m. steps_of m.boundaries m.edge m.ready.items m.cursor.items m.round m.limit };

    ghost invariant = { λ m. IsKept
        (steps_of m.boundaries m.edge m.ready.items m.cursor.items m.round m.limit)
        m.boundaries m.filter m.cursor.items (vec_capacity m.cursor) };
}

impl StepMap {
    /// Makes the function that is -1 everywhere, with the edge 0 and a limit on boundaries.
    pub fn new(alloc: Global, limit: usize) -> Result<Self, StepError>
        requires least { 1 ≤ limit }
        requires most { limit ≤ MAX_LIMIT }
        ensures map { IfOk result (λ map. map ≡ new_map limit) }
        ensures everywhere { IfOk result (λ map. (key : List ℕ)
            → value_at map.boundaries key ≡ negsuc 0) }
        ensures newest { IfOk result (λ map. AreUpTo (negsuc 0) map.boundaries) }
        ensures covers { IfOk result (λ map. MapCovers map []) }
        ensures rooted { IfOk result (λ map. Rooted map []) }
        ensures err { IfErr result (λ error. error ≡ StepError.Memory) }
    {
        let cursor = Vec::with_capacity(alloc, MAX_KEY_LENGTH)?;
        let filter = Filter::new(alloc)?;
        let boundaries = Boundaries::new(alloc, -1).map_err(|_| AllocError)?;
        Ok(StepMap {
            boundaries,
            filter,
            edge: 0,
            ready: VecDeque::new(alloc),
            cursor,
            round: None,
            limit,
        })
    }

    /// Returns the version at the key, which may be of any length.
    pub fn at(&self, key: &[u8]) -> i64
        ensures value { result ≡ value_at self.now.boundaries key.now }
    {
        self.boundaries.version_at(key)
    }

    /// Returns the greatest version at a key of the range, or -1 if it is empty.
    pub fn greatest_in(&self, range: &Range) -> i64
        ensures empty { IsEmpty range.now → result ≡ negsuc 0 }
        ensures bound { (key : List ℕ) → Holds range.now key
            → value_at self.now.boundaries key ≤ℤ result }
        ensures reached { ¬ IsEmpty range.now
            → (key : List ℕ) × IsBytes key × Holds range.now key
            × (value_at self.now.boundaries key ≡ result) }
    {
        if range.is_empty() {
            return -1;
        }
        self.boundaries.greatest(range)
    }

    /// Returns whether the version at some key of the range is above this one; false if the range
    /// is empty.
    pub fn exceeds(&self, range: &Range, version: i64) -> bool
        ensures above { IsTrue result ↔ IsAbove self.now range.now version }
    {
        let query = RangeQuery {
            range: range.as_ref(),
            version,
            hash: range.as_ref().single_hash(),
        };
        !range.is_empty() && self.boundaries.is_above(query)
    }

    /// Answers for each query, in order, what `exceeds` returns for its range and its version. The
    /// new answers replace the old ones, and only they take memory. Several queries are looked up
    /// side by side. After an error the answers are unspecified.
    pub fn exceeds_each<L: QueryList>(
        &self,
        queries: &L,
        answers: &mut Vec<bool>,
    ) -> Result<(), AllocError>
        ensures above { OnOk result (AllZip (λ q above. IsTrue above ↔ IsAbove self.now q.0 q.1)
            (L.queries queries.now) answers.new.items) }
    {
        answers.clear();
        answers.reserve(queries.len())?;
        while answers.len() < queries.len() {
            self.answer_some(queries, answers)?;
        }
        Ok(())
    }

    /// Returns about how many bytes of memory the boundaries and the filter have used so far.
    /// Memory of boundaries that were removed still counts, until [`StepMap::trim`]. What the
    /// allocator adds doesn't count.
    pub fn bytes_held(&self) -> usize {
        let boundaries = self.boundaries.bytes_held();
        boundaries.saturating_add(self.filter.bytes_held())
    }

    /// Returns the number of boundaries, that at the empty key included.
    pub fn boundaries(&self) -> usize
        ensures count { result ≡ length self.now.boundaries }
        ensures within { result ≤ self.now.limit }
        ensures steps { AreSteps self.now }
    {
        self.boundaries.len()
    }

    /// Returns the limit on boundaries.
    pub fn limit(&self) -> usize
        ensures limit { result ≡ self.now.limit }
    {
        self.limit
    }

    /// Returns the edge: a version below it says nothing.
    pub fn edge(&self) -> i64
        ensures edge { result ≡ self.now.edge }
    {
        self.edge
    }

    /// Takes all the memory that writing ranges with keys of these lengths needs, instead of any
    /// taken before. Such ranges can then be written, in this order. If the boundaries, and two for
    /// each range, exceed the limit, it sweeps a complete round from the front first.
    ///
    /// Returns `Full` if they still exceed it, before any memory is taken. Returns `Memory` if an
    /// allocation fails or an arena would have more chunks than slots can name. After either no
    /// range is ready; the function says the same as before at and above the edge.
    pub fn prepare(&mut self, lengths: &[KeyLengths]) -> Result<(), StepError>
        ensures ok { OnOk result (self.new ≡ after_prepare lengths.now self.old) }
        ensures err { OnErr result (self.new
            ≡ record (after_prepare lengths.now self.old) { ready = [] }) }
        ensures full { (result ≡ Err StepError.Full)
            ↔ ¬ HasRoomFor (length lengths.now) (made_room (length lengths.now) self.old) }
        ensures steps { AreSteps self.new }
        ensures edge { self.new.edge ≡ self.old.edge }
        ensures limit { self.new.limit ≡ self.old.limit }
        ensures same { SameFrom self.old.edge (value_at self.old.boundaries)
            (value_at self.new.boundaries) }
        ensures newest { (version : ℤ)
            → AreUpTo version self.old.boundaries → AreUpTo version self.new.boundaries }
        ensures covers { (ws : List Write) → MapCovers self.old ws → MapCovers self.new ws }
        ensures rooted { (ws : List Write) → Rooted self.old ws → Rooted self.new ws }
        ensures untouched { HasRoomFor (length lengths.now) self.old
            → self.new ≡ record self.old { ready = self.new.ready } }
        ensures front { ¬ HasRoomFor (length lengths.now) self.old → self.new.round ≡ None }
        ensures ends { ¬ HasRoomFor (length lengths.now) self.old → (ws : List Write)
            → Rooted self.old ws
            → Ends self.new.boundaries ws self.old.edge }
        ensures bound { result ≡ Err StepError.Full → (ws : List Write) → Rooted self.old ws
            → self.old.limit < 1 + 2 * (live_count self.old.edge ws + length lengths.now) }
    {
        if !self.make_room(lengths.len()) {
            self.ready.clear();
            return Err(StepError::Full);
        }
        self.reserve(lengths)?;
        Ok(())
    }

    /// Raises the edge to this one. Nothing else changes. It takes no memory.
    pub fn raise(&mut self, edge: i64)
        requires late { self.old.edge ≤ℤ edge }
        ensures map { self.new ≡ record self.old { edge = edge } }
        ensures newest { (version : ℤ)
            → AreUpTo version self.old.boundaries → AreUpTo version self.new.boundaries }
        ensures covers { (ws : List Write) → MapCovers self.old ws → MapCovers self.new ws }
        ensures rooted { (ws : List Write) → Rooted self.old ws → Rooted self.new ws }
    {
        self.edge = edge;
    }

    /// Looks at the next `count` boundaries of the round, or at all remaining ones, and removes
    /// those that say nothing at or above the edge. The boundary at the empty key is never looked
    /// at. It takes no memory.
    pub fn sweep(&mut self, count: usize) -> SweepEnd
        ensures map { self.new ≡ after_sweep count self.old }
        ensures round { (result ≡ SweepEnd.Round) ↔ (rest self.old ≤ count) }
        ensures same { SameFrom self.old.edge (value_at self.old.boundaries)
            (value_at self.new.boundaries) }
        ensures newest { (version : ℤ)
            → AreUpTo version self.old.boundaries → AreUpTo version self.new.boundaries }
        ensures covers { (ws : List Write) → MapCovers self.old ws → MapCovers self.new ws }
        ensures rooted { (ws : List Write) → Rooted self.old ws → Rooted self.new ws }
        ensures ends { result ≡ SweepEnd.Round → (ws : List Write) → Rooted self.old ws
            → Ends self.new.boundaries ws (round_edge self.old.edge self.old.round) }
        ensures ends_stay { (ws : List Write) (edge : ℤ)
            → Ends self.old.boundaries ws edge → Ends self.new.boundaries ws edge }
        ensures front { result ≡ SweepEnd.Round → self.new.round ≡ None }
        ensures fewer { result ≡ SweepEnd.Stopped → rest self.new + count ≡ rest self.old }
        ensures count { length self.new.boundaries ≤ length self.old.boundaries }
    {
        let began = self.round.unwrap_or(self.edge);
        self.boundaries.sweep(&mut self.cursor, count, self.edge);
        if self.cursor.is_empty() {
            self.round = None;
            return SweepEnd::Round;
        }
        self.round = Some(began);
        SweepEnd::Stopped
    }
}
