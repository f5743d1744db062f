//! The sweep of boundaries.

ghost use Rattle.std.specs.Prelude.{◌≡◌, ◌≢◌, ℕ, ◌≤◌, negsuc, [], ◌++◌, length, take, drop};
ghost use Rattle.std.specs.Prelude.{vec_capacity};
ghost use Rattle.std.specs.Prelude.{Any, All, IfSome, unwrap_or, option_map};
ghost use Rattle.arena.specs.Arena.{IsLive};
ghost use Rattle.keys.specs.Key.{IsKey};
ghost use Rattle.keys.specs.declared.key.TheConstants.{MAX_KEY_LENGTH};
ghost use Rattle.boundaries.specs.Bound.{bytes_at};
ghost use Rattle.boundaries.specs.Boundary.{AreBoundaries, first_key, last_version};
ghost use Rattle.boundaries.specs.Stored.{spare_in};
ghost use Rattle.boundaries.specs.Swept.{left_from, passed_to, boundaries_after_sweep};
ghost use Rattle.boundaries.specs.Swept.{unexpired_boundaries, unexpired_all};

use super::Boundaries;
use crate::expiry::{Expiring, Removal};
use crate::key_bound::{KeyBound, Keys};
use crate::unexpired::count_unexpired;
use arena::Slot;

impl Boundaries {
    /// Looks at `count` boundaries from the cursor on, or at all remaining ones, and removes each
    /// whose version and predecessor's version are below `edge`. That at the empty key is never
    /// looked at. The cursor is then at the first one left, or empty.
    pub fn sweep(&mut self, cursor: &mut Vec<u8>, count: usize, edge: i64)
        requires boundaries { AreBoundaries self.old.boundaries }
        requires any_key { MAX_KEY_LENGTH ≤ vec_capacity cursor.old }
        ensures boundaries { self.new.boundaries ≡ boundaries_after_sweep edge count
            (passed_to cursor.old.items self.old.boundaries)
            (left_from cursor.old.items self.old.boundaries) }
        ensures cursor { cursor.new.items
            ≡ first_key (drop count (left_from cursor.old.items self.old.boundaries)) }
        ensures capacity { vec_capacity cursor.old ≤ vec_capacity cursor.new }
        ensures spare { (size : ℕ) → spare_in self.old size ≤ spare_in self.new size }
        ensures room { self.new.room ≡ self.old.room }
    {
        let mut before = self.resume(cursor);
        let mut left = count;
        while left > 0 && !cursor.is_empty() {
            let removal = self.remove_expired(cursor, left, edge, before);
            before = removal.last;
            left -= removal.looked_at;
        }
    }

    /// Returns how many boundaries a sweep of all of them would leave at this edge. It looks at
    /// each of them, and takes no memory.
    pub fn count_unexpired(&self, edge: i64) -> usize
        ensures count { result ≡ length (unexpired_all edge self.now.boundaries) }
    {
        count_unexpired(&self.tree.store, self.tree.root, edge)
    }

    // Moves the cursor to the first boundary that is left, or empties it if there is none. Returns
    // the version of the one before.
    fn resume(&self, cursor: &mut Vec<u8>) -> i64
        requires keys { All (λ b. IsKey b.key) self.now.boundaries }
        requires any_key { MAX_KEY_LENGTH ≤ vec_capacity cursor.old }
        ensures version { result ≡ last_version (negsuc 0)
            (passed_to cursor.old.items self.now.boundaries) }
        ensures cursor { cursor.new.items
            ≡ first_key (left_from cursor.old.items self.now.boundaries) }
        ensures capacity { vec_capacity cursor.old ≤ vec_capacity cursor.new }
    {
        let passed = KeyBound {
            key: cursor,
            up_to: cursor.is_empty(),
        };
        let (version, next) = self.tree.version_and_next(passed);
        move_to(&self.tree.store.keys, cursor, next);
        version
    }

    // Looks at some boundaries from the one at the cursor on, at most `count`, and removes each
    // whose version and predecessor's version are below `edge`. `before` is the version of the
    // boundary before them. The cursor is then at the first one not looked at, or empty.
    fn remove_expired(
        &mut self,
        cursor: &mut Vec<u8>,
        count: usize,
        edge: i64,
        before: i64,
    ) -> Removal
        requires keys { All (λ b. IsKey b.key) self.old.boundaries }
        requires any_key { MAX_KEY_LENGTH ≤ vec_capacity cursor.old }
        requires later { cursor.old.items ≢ [] }
        requires there { Any (λ b. b.key ≡ cursor.old.items) self.old.boundaries }
        requires count { 1 ≤ count }
        ensures count { (1 ≤ result.looked_at) × (result.looked_at ≤ count) }
        ensures within { result.looked_at
            ≤ length (left_from cursor.old.items self.old.boundaries) }
        ensures last { result.last
            ≡ last_version before (take result.looked_at
            (left_from cursor.old.items self.old.boundaries)) }
        ensures boundaries { self.new.boundaries ≡ passed_to cursor.old.items self.old.boundaries
            ++ (unexpired_boundaries edge before (take result.looked_at
            (left_from cursor.old.items self.old.boundaries))
            ++ drop result.looked_at (left_from cursor.old.items self.old.boundaries)) }
        ensures cursor { cursor.new.items
            ≡ first_key (drop result.looked_at (left_from cursor.old.items self.old.boundaries)) }
        ensures capacity { vec_capacity cursor.old ≤ vec_capacity cursor.new }
        ensures spare { (size : ℕ) → spare_in self.old size ≤ spare_in self.new size }
        ensures room { self.new.room ≡ self.old.room }
    {
        let mut expiring = Expiring::new(KeyBound::after(cursor), count, edge, before);
        self.tree.change(&mut expiring);
        let removal = expiring.removal;
        move_to(&self.tree.store.keys, cursor, removal.next);
        self.tree.store.release_removed();
        removal
    }
}

/// Moves the cursor to the key of a slot, or empties it if there is none.
pub fn move_to(keys: &Keys, cursor: &mut Vec<u8>, next: Option<Slot>)
    requires live { IfSome next (λ slot. IsLive keys.now slot) }
    requires fits { IfSome next (λ slot. length (bytes_at keys.now slot)
        ≤ vec_capacity cursor.old) }
    ensures cursor { cursor.new.items ≡ unwrap_or (option_map (bytes_at keys.now) next) [] }
    ensures capacity { vec_capacity cursor.old ≤ vec_capacity cursor.new }
{
    cursor.clear();
    if let Some(slot) = next {
        cursor.extend_from_slice(keys.key(slot)).unwrap();
    }
}
