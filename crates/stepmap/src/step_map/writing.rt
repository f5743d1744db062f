//! Writing: a version is set on a range, and noted in the filter.

ghost use Rattle.std.specs.Prelude.{◌≡◌, ℕ, ◌+◌, ◌≤◌, ℤ, ◌≤ℤ◌, List, length, slice_get, Some};
ghost use Rattle.keys.specs.Range.{Holds, IsEmpty};
ghost use Rattle.keyspace.specs.Writes.{Write, with_write};
ghost use Rattle.stepmap.specs.Boundary.{value_at, AreUpTo};
ghost use Rattle.stepmap.specs.StepMap.{lengths};
ghost use Rattle.stepmap.specs.Writing.{after_write};
ghost use Rattle.stepmap.specs.Sweeping.{rest};
ghost use Rattle.stepmap.specs.Covers.{MapCovers};
ghost use Rattle.stepmap.specs.Rooted.{Ends, Rooted};
ghost use Rattle.stepmap.specs.Filter.{bound};

use super::StepMap;
use crate::filter::Filter;
use keys::HashedRange;

impl StepMap {
    /// Notes that a key of this hash, as `keys::key_hash` returns it, is going to be written at the
    /// version. The function stays as it is, and no answer changes. If many keys are written, the
    /// hashes of all of them come first, so that the memory which the filter has for them is waited
    /// for at once. It takes no memory.
    pub fn note_key(&mut self, hash: u32, version: i64)
        ensures same { self.new ≡ self.old }
    {
        self.filter.write_key(hash, version);
    }

    /// Sets the version on the range; elsewhere the function stays as it is. The range's keys have
    /// the lengths that were prepared next. It takes no memory: the keys are copied into what was
    /// taken.
    pub fn write(&mut self, range: HashedRange<'_>, version: i64)
        requires filled { ¬ IsEmpty range }
        requires ready { slice_get self.old.ready 0 ≡ Some (lengths range) }
        requires newest { AreUpTo version self.old.boundaries }
        requires late { self.old.edge ≤ℤ version }
        ensures map { self.new ≡ after_write range.entry version self.old }
        ensures on_range { (key : List ℕ) → Holds range.entry key
            → value_at self.new.boundaries key ≡ version }
        ensures elsewhere { (key : List ℕ) → ¬ Holds range.entry key
            → value_at self.new.boundaries key ≡ value_at self.old.boundaries key }
        ensures newest { AreUpTo version self.new.boundaries }
        ensures covers { (ws : List Write)
            → MapCovers self.old ws → MapCovers self.new (with_write ws range.entry version) }
        ensures rooted { (ws : List Write)
            → Rooted self.old ws → Rooted self.new (with_write ws range.entry version) }
        ensures ends { (ws : List Write) (edge : ℤ) → edge ≤ℤ version
            → Ends self.old.boundaries ws edge
            → Ends self.new.boundaries (with_write ws range.entry version) edge }
        ensures rest { rest self.new ≤ rest self.old + 2 }
        ensures count { length self.new.boundaries ≤ length self.old.boundaries + 2 }
    {
        self.ready.pop_front();
        note(&mut self.filter, &range, version);
        self.boundaries.write(&range, version);
    }
}

// Notes in the filter that the range is written at the version. It takes no memory.
fn note(filter: &mut Filter, range: &HashedRange<'_>, version: i64)
    ensures on_range { (key : List ℕ) → Holds range.now key → version ≤ℤ bound filter.new key }
    ensures raised { (key : List ℕ) → bound filter.old key ≤ℤ bound filter.new key }
{
    match range.hash() {
        Some(hash) => filter.write_key(hash, version),
        None => filter.write_range(version),
    }
}
