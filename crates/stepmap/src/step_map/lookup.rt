//! The answering of many queries: the filter is asked first, and the boundaries for those that it
//! leaves open.
//!
//! The hashes of single keys are gathered first, and the cells of the filter are read then. So the
//! processor waits for the memory of all these cells at once.

ghost use Rattle.std.specs.Prelude.{◌≡◌, ◌+◌, ◌-◌, ◌<◌, ◌≤◌, ◌↔◌, Bool, List, ◌++◌, All, length};
ghost use Rattle.std.specs.Prelude.{map, take, drop, count_by, slice_get, IfOk, OnOk, IsSomeAnd};
ghost use Rattle.std.specs.Prelude.{IsTrue};
ghost use Rattle.std.specs.List.{AllZip};
ghost use Rattle.keys.specs.Hash.{hash_of};
ghost use Rattle.keys.specs.Range.{IsEmpty, IsSingle};
ghost use Rattle.boundaries.specs.declared.question.TheConstants.{SIDE};
ghost use Rattle.stepmap.specs.Covers.{IsAbove};
ghost use Rattle.stepmap.specs.Filter.{bound_in};
ghost use Rattle.stepmap.specs.Filtering.{AreMarked, IsBound, with_answers};

use super::StepMap;
use crate::filter::Filter;
use arrayvec::ArrayVec;
use boundaries::{QueryList, SIDE};
use std::alloc::AllocError;

impl StepMap {
    // Answers the next of the queries, and appends the answers. At most `SIDE` of them are looked
    // up, side by side.
    pub(super) fn answer_some<L: QueryList>(
        &self,
        queries: &L,
        answers: &mut Vec<bool>,
    ) -> Result<(), AllocError>
        requires some { length answers.old.items < length (L.queries queries.now) }
        ensures more { OnOk result (length answers.old.items < length answers.new.items) }
        ensures within { OnOk result (length answers.new.items ≤ length (L.queries queries.now)) }
        ensures answered { OnOk result (AllZip (λ q above. IsTrue above ↔ IsAbove self.now q.0 q.1)
            (take (length answers.old.items) (L.queries queries.now)) answers.old.items
            → AllZip (λ q above. IsTrue above ↔ IsAbove self.now q.0 q.1)
            (take (length answers.new.items) (L.queries queries.now)) answers.new.items) }
    {
        let from = answers.len();
        let places = self.mark_some(queries, answers)?;
        let answered = self.boundaries.are_above(queries, places.as_slice());
        put_answers(answers, from, answered.as_slice());
        Ok(())
    }

    // Marks the next of the queries, and appends the marks: true where the filter leaves a query
    // open. Returns the places of these. There are at most `SIDE`.
    fn mark_some<L: QueryList>(
        &self,
        queries: &L,
        marks: &mut Vec<bool>,
    ) -> Result<ArrayVec<usize, SIDE>, AllocError>
        requires some { length marks.old.items < length (L.queries queries.now) }
        ensures marked { IfOk result (λ places. (answered : List Bool)
            × (marks.new.items ≡ marks.old.items ++ answered)
            × (1 ≤ length answered) × AreMarked self.now (L.queries queries.now)
            (length marks.old.items) answered places.items) }
    {
        let count = queries.len();
        let mut places = ArrayVec::new();
        while marks.len() < count && !places.is_full() {
            self.mark_next(queries, marks, &mut places)?;
        }
        Ok(places)
    }

    // Marks the next queries the same way, at least one and up to `SIDE`, as far as there is room
    // for their places, and adds the places.
    fn mark_next<L: QueryList>(
        &self,
        queries: &L,
        marks: &mut Vec<bool>,
        places: &mut ArrayVec<usize, SIDE>,
    ) -> Result<(), AllocError>
        requires some { length marks.old.items < length (L.queries queries.now) }
        requires room { length places.old.items < SIDE }
        ensures more { OnOk result (length marks.old.items < length marks.new.items) }
        ensures marked { OnOk result ((old answered : List Bool) → marks.old.items ≡ old ++ answered
            → AreMarked self.now (L.queries queries.now) (length old) answered places.old.items
            → (more : List Bool) × (marks.new.items ≡ old ++ more)
            × AreMarked self.now (L.queries queries.now) (length old) more places.new.items) }
    {
        let bounds = self.bounds_from(queries, marks.len(), SIDE);
        for bound in bounds.as_slice() {
            if places.is_full() {
                break;
            }
            let place = marks.len();
            let is_open = self.is_open(queries, place, *bound);
            if is_open {
                places.push(place);
            }
            marks.push(is_open)?;
        }
        Ok(())
    }

    // Returns bounds of the ranges of the next queries, at least one and at most as many as is
    // said.
    fn bounds_from<L: QueryList>(
        &self,
        queries: &L,
        from: usize,
        most: usize,
    ) -> ArrayVec<i64, SIDE>
        requires some { from < length (L.queries queries.now) }
        requires least { 1 ≤ most }
        requires few { most ≤ SIDE }
        ensures bounds { AllZip (λ q bound. IsBound self.now q.0 bound)
            (take (length result.items) (drop from (L.queries queries.now))) result.items }
        ensures some { 1 ≤ length result.items }
        ensures few { length result.items ≤ most }
        ensures within { from + length result.items ≤ length (L.queries queries.now) }
    {
        let count = (queries.len() - from).min(most);
        if !self.filter.is_useful() {
            return repeated(self.filter.newest_range(), count);
        }
        let hashes = hashes_from(queries, from, from + count);
        bounds_at(&self.filter, hashes.as_slice())
    }

    // Returns whether the query at the index is to be looked up: its range isn't empty, and this
    // bound of it leaves it open. The bound has bounds of single keys only, and only from the edge
    // on.
    fn is_open<L: QueryList>(&self, queries: &L, index: usize, bound: i64) -> bool
        requires bound { IsSomeAnd (slice_get (L.queries queries.now) index)
            (λ q. IsBound self.now q.0 bound) }
        ensures filled { IsTrue result
            → IsSomeAnd (slice_get (L.queries queries.now) index) (λ q. ¬ IsEmpty q.0) }
        ensures others { ¬ IsTrue result
            → IsSomeAnd (slice_get (L.queries queries.now) index)
            (λ q. ¬ IsAbove self.now q.0 q.1) }
    {
        if queries.hash(index).is_none() {
            return !queries.query(index).range.is_empty();
        }
        let version = queries.version(index);
        version < self.edge || version < bound
    }
}

// Returns a hash for each of the queries from one index up to another: that of its key, if its
// range is a single key. It looks at no key.
fn hashes_from<L: QueryList>(queries: &L, from: usize, to: usize) -> ArrayVec<u32, SIDE>
    requires ordered { from ≤ to }
    requires within { to ≤ length (L.queries queries.now) }
    requires few { to ≤ from + SIDE }
    ensures hashes { AllZip (λ q hash. IsSingle q.0 → hash ≡ hash_of q.0.begin)
        (take (to - from) (drop from (L.queries queries.now))) result.items }
    ensures count { length result.items ≡ to - from }
{
    let mut hashes = ArrayVec::new();
    for index in from..to {
        hashes.push(queries.hash(index).unwrap_or(0));
    }
    hashes
}

// Returns the bounds of the keys of these hashes.
fn bounds_at(filter: &Filter, hashes: &[u32]) -> ArrayVec<i64, SIDE>
    requires few { length hashes.now ≤ SIDE }
    ensures bounds { result.items ≡ map (bound_in filter.now) hashes.now }
{
    let mut bounds = ArrayVec::new();
    for hash in hashes {
        bounds.push(filter.bound_at(*hash));
    }
    bounds
}

// Returns the bound n times.
fn repeated(bound: i64, count: usize) -> ArrayVec<i64, SIDE>
    requires few { count ≤ SIDE }
    ensures each { All (λ b. b ≡ bound) result.items }
    ensures count { length result.items ≡ count }
{
    let mut bounds = ArrayVec::new();
    while bounds.len() < count {
        bounds.push(bound);
    }
    bounds
}

// Replaces the marks from this index on by the answers, in order.
fn put_answers(marks: &mut [bool], from: usize, answered: &[bool])
    requires within { from ≤ length marks.old }
    requires each { count_by (λ mark. mark) (drop from marks.old) ≤ length answered.now }
    ensures answers { marks.new
        ≡ take from marks.old ++ with_answers (drop from marks.old) answered.now }
{
    let mut next = 0;
    for index in from..marks.len() {
        if marks[index] {
            marks[index] = answered[next];
            next += 1;
        }
    }
}
