//! A step down from a node: to which child the search continues, and what is known of its first
//! key.

ghost use Rattle.std.specs.Prelude.{◌≡◌, ◌<◌, ◌+◌, ◌-◌, length, get_or, slice_get, Some, IsTrue};
ghost use Rattle.boundaries.specs.Bound.{is_below};
ghost use Rattle.boundaries.specs.Finding.{CanStep, IsHeadFor, IsKnownAt, IsStep};
ghost use Rattle.boundaries.specs.Node.{entries_of, key_heads_of};

use super::Node;
use super::heads::same_head_bytes;
use crate::entry::NodeEntry;
use crate::key_bound::{KeyBound, Keys};

/// The step of a search down from a node.
#[derive(Clone, Copy, Debug)]
pub struct Step {
    /// The index of the last entry below the bound.
    pub index: usize,
    /// How many bytes its key and the bound's begin with in common.
    pub common_prefix_len: usize,
}

impl Node {
    /// Finds the last entry below the bound. The first one is, and its key and the bound's begin
    /// with `common_prefix_len` bytes in common.
    #[inline(always)]
    pub fn step(&self, keys: &Keys, bound: KeyBound<'_>, common_prefix_len: usize) -> Step
        requires can_step { CanStep keys.now bound self.now common_prefix_len }
        ensures step { IsStep keys.now bound.entry self.now result }
    {
        let head = self.head_for(keys, bound, common_prefix_len);
        self.step_by(keys, bound, common_prefix_len, head)
    }

    /// Finds the last entry below the bound, as `step` does. It tries the entry at `guess` first,
    /// which may be any number.
    #[inline(always)]
    pub fn step_by_guess(
        &self,
        keys: &Keys,
        bound: KeyBound<'_>,
        common_prefix_len: usize,
        guess: usize,
    ) -> Step
        requires can_step { CanStep keys.now bound self.now common_prefix_len }
        ensures step { IsStep keys.now bound.entry self.now result }
    {
        let head = self.head_for(keys, bound, common_prefix_len);
        let Some(own) = head else {
            return self.step_by(keys, bound, common_prefix_len, None);
        };
        if !self.falls_after(guess, own) {
            return self.step_by(keys, bound, common_prefix_len, Some(own));
        }
        let known = self.common_prefix_len_in(keys, guess, bound, common_prefix_len, Some(own));
        Step {
            index: guess,
            common_prefix_len: known,
        }
    }

    // Returns whether a head is above that of the entry at an index, and below the next one, if
    // there is one.
    fn falls_after(&self, index: usize, head: u32) -> bool
        ensures within { IsTrue result → index < length (entries_of self.now) }
        ensures following { IsTrue result → get_or (key_heads_of self.now).heads index 0 < head }
        ensures before { IsTrue result → index + 1 < length (entries_of self.now)
            → head < get_or (key_heads_of self.now).heads (index + 1) 0 }
    {
        let len = self.len();
        if index >= len || self.heads[index] >= head {
            return false;
        }
        index + 1 == len || head < self.heads[index + 1]
    }

    /// Finds the last entry below the bound, as `step` does. `head` is what `head_for` returns.
    #[inline(always)]
    pub fn step_by(
        &self,
        keys: &Keys,
        bound: KeyBound<'_>,
        common_prefix_len: usize,
        head: Option<u32>,
    ) -> Step
        requires can_step { CanStep keys.now bound self.now common_prefix_len }
        requires head { IsHeadFor keys.now bound self.now common_prefix_len head }
        ensures step { IsStep keys.now bound.entry self.now result }
    {
        let index = self.lower_bound_by_head(keys, bound, head) - 1;
        let known = self.common_prefix_len_in(keys, index, bound, common_prefix_len, head);
        Step {
            index,
            common_prefix_len: known,
        }
    }

    // Returns how many bytes the key at an index, which is below the bound, and the bound's begin
    // with in common. `common_prefix_len` is the same of the first key.
    #[inline(always)]
    fn common_prefix_len_in(
        &self,
        keys: &Keys,
        index: usize,
        bound: KeyBound<'_>,
        common_prefix_len: usize,
        head: Option<u32>,
    ) -> usize
        requires can_step { CanStep keys.now bound self.now common_prefix_len }
        requires within { index < length (entries_of self.now) }
        requires is_below { (e : NodeEntry) → slice_get (entries_of self.now) index ≡ Some e
            → IsTrue (is_below keys.now bound e.key) }
        requires head { IsHeadFor keys.now bound self.now common_prefix_len head }
        ensures known { IsKnownAt keys.now bound.entry self.now index result }
    {
        if index == 0 {
            return common_prefix_len;
        }
        let Some(head) = head else {
            if self.heads[0] != 0 {
                return common_prefix_len;
            }
            return bound.common_prefix_len(keys, self.entries[index].key);
        };
        if self.heads[index] == head {
            return bound.common_prefix_len(keys, self.entries[index].key);
        }
        self.prefix_len() + same_head_bytes(self.heads[index], head)
    }
}
