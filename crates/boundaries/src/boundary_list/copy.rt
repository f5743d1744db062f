//! A copy of boundaries in new memory.

ghost use Rattle.std.specs.Prelude.{◌≡◌, ◌+◌, ◌<◌, ◌≤◌, negsuc, [], length, vec_capacity, All};
ghost use Rattle.std.specs.Prelude.{IfOk, OnOk};
ghost use Rattle.keys.specs.Key.{IsKey};
ghost use Rattle.keys.specs.declared.key.TheConstants.{MAX_KEY_LENGTH};
ghost use Rattle.boundaries.specs.Boundary.{AreBoundaries, last_version, value_at};
ghost use Rattle.boundaries.specs.Copying.{boundaries_after, greatest_of_length, IsCopiedTo};
ghost use Rattle.boundaries.specs.Boundary.{first_key};
ghost use Rattle.limits.specs.declared.settings.TheConstants.{MAX_LIMIT};

use super::Boundaries;
use super::sweep::move_to;
use crate::key_bound::KeyBound;
use crate::key_lengths::KeyLengths;
use keys::{HashedRange, MAX_KEY_LENGTH, RangeRef};
use limits::MAX_LIMIT;
use std::alloc::{AllocError, Global};
use std::mem;

impl Boundaries {
    // Returns the same boundaries in new memory, which has room for few more.
    pub fn copied(&self, alloc: Global) -> Result<Self, AllocError>
        requires boundaries { AreBoundaries self.now.boundaries }
        requires limit { length self.now.boundaries < MAX_LIMIT }
        ensures boundaries { IfOk result (λ copy. copy.boundaries ≡ self.now.boundaries) }
        ensures within { IfOk result (λ copy. length copy.boundaries ≤ copy.room) }
    {
        let mut from = Vec::with_capacity(alloc, MAX_KEY_LENGTH)?;
        let mut to = Vec::with_capacity(alloc, MAX_KEY_LENGTH)?;
        let mut copy = self.copied_first(alloc)?;
        while copy.len() < self.len() {
            self.copy_next(&mut copy, &mut from, &mut to)?;
        }
        Ok(copy)
    }

    // Returns the copy that `copy_next` begins with: at the empty key, with the version of the last
    // boundary.
    fn copied_first(&self, alloc: Global) -> Result<Self, AllocError>
        requires boundaries { AreBoundaries self.now.boundaries }
        ensures copied { IfOk result (λ copy. IsCopiedTo [] self.now.boundaries copy.boundaries) }
        ensures boundaries { IfOk result (λ copy. AreBoundaries copy.boundaries) }
    {
        let last = self.last_version(alloc)?;
        let Ok(copy) = Boundaries::new(alloc, last) else {
            return Err(AllocError);
        };
        Ok(copy)
    }

    // Returns the version of the last boundary, which is the version at the greatest key.
    fn last_version(&self, alloc: Global) -> Result<i64, AllocError>
        requires keys { All (λ b. IsKey b.key) self.now.boundaries }
        ensures last { IfOk result (λ version. version
            ≡ last_version (negsuc 0) self.now.boundaries) }
    {
        let greatest = bytes_of_greatest(alloc, MAX_KEY_LENGTH)?;
        Ok(self.version_at(&greatest))
    }

    // Copies the next boundary, and moves `from` from the key of the one before to its key. `to` is
    // overwritten.
    fn copy_next(
        &self,
        copy: &mut Self,
        from: &mut Vec<u8>,
        to: &mut Vec<u8>,
    ) -> Result<(), AllocError>
        requires boundaries { AreBoundaries self.now.boundaries }
        requires copy_boundaries { AreBoundaries copy.old.boundaries }
        requires copied { IsCopiedTo from.old.items self.now.boundaries copy.old.boundaries }
        requires more { length copy.old.boundaries < length self.now.boundaries }
        requires limit { length self.now.boundaries < MAX_LIMIT }
        requires any_from { MAX_KEY_LENGTH ≤ vec_capacity from.old }
        requires any_to { MAX_KEY_LENGTH ≤ vec_capacity to.old }
        ensures copied { OnOk result (IsCopiedTo from.new.items self.now.boundaries
            copy.new.boundaries) }
        ensures copy_boundaries { OnOk result (AreBoundaries copy.new.boundaries) }
        ensures longer { OnOk result (length copy.new.boundaries
            ≡ length copy.old.boundaries + 1) }
        ensures any_from { OnOk result (MAX_KEY_LENGTH ≤ vec_capacity from.new) }
        ensures any_to { OnOk result (MAX_KEY_LENGTH ≤ vec_capacity to.new) }
    {
        let version = self.look_past(from, to);
        copy.reserve(&[KeyLengths::of(RangeRef::new(from, to))])?;
        copy.write(&HashedRange::of(RangeRef::new(from, to)), version);
        mem::swap(from, to);
        Ok(())
    }

    // Returns the version at the key, and moves `next` to the key of the first boundary after it,
    // or empties it if there is none.
    fn look_past(&self, key: &[u8], next: &mut Vec<u8>) -> i64
        requires keys { All (λ b. IsKey b.key) self.now.boundaries }
        requires any_key { MAX_KEY_LENGTH ≤ vec_capacity next.old }
        ensures version { result ≡ value_at self.now.boundaries key.now }
        ensures next { next.new.items ≡ first_key (boundaries_after key.now self.now.boundaries) }
        ensures capacity { MAX_KEY_LENGTH ≤ vec_capacity next.new }
    {
        let (version, later) = self.tree.version_and_next(KeyBound::after(key));
        move_to(&self.tree.store.keys, next, later);
        version
    }
}

// Returns the bytes of the greatest key of this length.
#[tactic(auto, unfolding(crate::specs::Copying::greatest_of_length))]
fn bytes_of_greatest(alloc: Global, count: usize) -> Result<Vec<u8>, AllocError>
    ensures bytes { IfOk result (λ bytes. bytes.items ≡ greatest_of_length count) }
{
    vec![in alloc; 255; count]
}
