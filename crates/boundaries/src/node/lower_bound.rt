//! The search in a node: by the heads of its keys, and by their bytes if heads are the same.

ghost use Rattle.std.specs.Prelude.{◌≡◌, ◌≢◌, ◌<◌, ◌≤◌, ◌+◌, ℕ, ◌-◌, length, filter, get_or};
ghost use Rattle.std.specs.Prelude.{slice_get, None, Some, IsTrue};
ghost use Rattle.arena.specs.Arena.{key_at};
ghost use Rattle.boundaries.specs.Bound.{is_below};
ghost use Rattle.boundaries.specs.Finding.{AreTied, BeginsInCommon, CanFind, CanStep, HasHead};
ghost use Rattle.boundaries.specs.Finding.{IsHeadFor, IsLowerBound, IsSearchedBeside};
ghost use Rattle.boundaries.specs.Heads.{HasPrefix};
ghost use Rattle.boundaries.specs.Node.{IsHeaded, entries_of, key_heads_of};
ghost use Rattle.boundaries.specs.Path.{IsPartitioned};
ghost use Rattle.boundaries.specs.declared.node.TheConstants.{FAN_OUT, PADDING};

use super::{FAN_OUT, Node};
use crate::entry::NodeEntry;
use crate::key_bound::{KeyBound, Keys};

// How many heads a search looks at side by side.
const BLOCK: usize = 8;

const _: () = prove!(BLOCK == 8);

impl Node {
    /// Returns how many of the entries are below the bound. The first one is, and its key and the
    /// bound's begin with `common_prefix_len` bytes in common.
    pub fn lower_bound(&self, keys: &Keys, bound: KeyBound<'_>, common_prefix_len: usize) -> usize
        requires can_step { CanStep keys.now bound self.now common_prefix_len }
        ensures count { IsLowerBound (is_below keys.now bound.entry) self.now result }
    {
        let head = self.head_for(keys, bound, common_prefix_len);
        self.lower_bound_by_head(keys, bound, head)
    }

    /// Returns how many of the entries are below the bound. `head` is that of its key, if that
    /// begins as all keys do.
    #[inline(always)]
    pub fn lower_bound_by_head(&self, keys: &Keys, bound: KeyBound<'_>, head: Option<u32>) -> usize
        requires can_find { CanFind keys.now bound self.now }
        requires head { HasHead keys.now bound head self.now }
        requires none { head ≡ None → get_or (key_heads_of self.now).heads 0 0 ≢ 0
            → length (filter (λ e. is_below keys.now bound e.key) (entries_of self.now))
            ≡ length (entries_of self.now) }
        ensures count { IsLowerBound (is_below keys.now bound.entry) self.now result }
    {
        let Some(own) = head else {
            // All keys are below that begin in the same way.
            if self.heads[0] != 0 {
                return self.len();
            }
            return self.lower_bound_from(keys, 0, bound, None);
        };
        let below = heads_below(&self.heads, own);
        self.lower_bound_from(keys, below, bound, Some(own))
    }

    /// Returns the head of the bound's key after the prefix of all keys, if it has that prefix,
    /// too. The first key and the bound's begin with `common_prefix_len` bytes in common, at least,
    /// unless the first one is empty.
    #[inline(always)]
    pub fn head_for(
        &self,
        keys: &Keys,
        bound: KeyBound<'_>,
        common_prefix_len: usize,
    ) -> Option<u32>
        requires headed { IsHeaded keys.now self.now }
        requires common_prefix_len { BeginsInCommon keys.now bound self.now common_prefix_len }
        ensures head { IsHeadFor keys.now bound.entry self.now common_prefix_len result }
    {
        let has_prefix = if self.heads[0] == 0 && self.prefix_len > 0 {
            self.has_prefix_of(keys, self.len() - 1, bound)
        } else {
            common_prefix_len >= self.prefix_len()
        };
        if !has_prefix {
            return None;
        }
        Some(bound.head(self.prefix_len()))
    }

    /// Returns the head as `head_for` does. The bound's key and another one begin with `common`
    /// bytes in common, and `other` is the head of that one, if it begins as all keys do.
    #[inline(always)]
    pub fn head_beside(
        &self,
        keys: &Keys,
        bound: KeyBound<'_>,
        common_prefix_len: usize,
        common: usize,
        other: Option<u32>,
    ) -> Option<u32>
        requires searched { IsSearchedBeside keys.now bound self.now common_prefix_len common
            other }
        ensures head { HasHead keys.now bound.entry result self.now }
    {
        if other.is_some() && self.prefix_len() <= common {
            return Some(bound.head(self.prefix_len()));
        }
        self.head_for(keys, bound, common_prefix_len.min(common))
    }

    /// Returns whether the bound's key has the common prefix, as the key at an index has it. It may
    /// be false if that key may be empty, and is false if there is none.
    pub fn has_prefix_of(&self, keys: &Keys, index: usize, bound: KeyBound<'_>) -> bool
        requires headed { IsHeaded keys.now self.now }
        ensures has_prefix { IsTrue result
            → HasPrefix (key_at keys.now) (key_heads_of self.now) bound.entry.key.now }
    {
        if index >= self.len() || self.heads[index] == 0 {
            return false;
        }
        bound.begins_as(keys, self.entries[index].key, self.prefix_len())
    }

    /// Returns whether the head of the last key is above this one.
    pub fn ends_above(&self, head: u32) -> bool {
        self.heads[..self.len]
            .last()
            .is_some_and(|last| *last > head)
    }

    /// Returns whether the entry at an index is below the bound. `head` is that of its key, if that
    /// begins as all keys do.
    #[inline(always)]
    pub fn is_below_at(
        &self,
        keys: &Keys,
        index: usize,
        bound: KeyBound<'_>,
        head: Option<u32>,
    ) -> bool
        requires headed { IsHeaded keys.now self.now }
        requires within { index < length (entries_of self.now) }
        requires head { HasHead keys.now bound head self.now }
        ensures is_below { (e : NodeEntry) → slice_get (entries_of self.now) index ≡ Some e
            → result ≡ is_below keys.now bound.entry e.key }
    {
        let own = self.heads[index];
        match head {
            Some(head) if head != own => own < head,
            _ => bound.is_below(keys, self.entries[index].key),
        }
    }

    /// Returns how many of the entries are below the bound, of which at least the first n are.
    #[inline(always)]
    pub fn lower_bound_from(
        &self,
        keys: &Keys,
        from: usize,
        bound: KeyBound<'_>,
        head: Option<u32>,
    ) -> usize
        requires can_find { CanFind keys.now bound self.now }
        requires head { HasHead keys.now bound head self.now }
        requires least { from ≤ length
            (filter (λ e. is_below keys.now bound e.key) (entries_of self.now)) }
        ensures count { IsLowerBound (is_below keys.now bound.entry) self.now result }
    {
        let (from, to) = match head {
            Some(head) => self.tied(from, head),
            None => (from, self.len()),
        };
        if from == to {
            return from;
        }
        from + lower_bound(keys, &self.entries()[from..to], bound)
    }

    // Returns the index of the first entry, from this index on, whose head isn't below this one,
    // and that of the first one after it whose head is above it. So the entries with this head are
    // between these two.
    fn tied(&self, from: usize, head: u32) -> (usize, usize)
        requires from { from ≤ length (entries_of self.now) }
        ensures tied { AreTied self.now head from result.0 result.1 }
    {
        let len = self.len();
        let mut first = from;
        while first < len && self.heads[first] < head {
            first += 1;
        }
        let mut end = first;
        while end < len && self.heads[end] <= head {
            end += 1;
        }
        (first, end)
    }

    /// Returns how many of the entries are below the bound, at most the first n. It looks at these
    /// one by one, from the last one on.
    #[inline(always)]
    pub fn lower_bound_back(
        &self,
        keys: &Keys,
        to: usize,
        bound: KeyBound<'_>,
        head: Option<u32>,
    ) -> usize
        requires can_find { CanFind keys.now bound self.now }
        requires head { HasHead keys.now bound head self.now }
        requires within { to ≤ length (entries_of self.now) }
        requires most { length (filter (λ e. is_below keys.now bound e.key) (entries_of self.now))
            ≤ to }
        ensures count { IsLowerBound (is_below keys.now bound.entry) self.now result }
    {
        let mut count = to;
        while count > 0 && !self.is_below_at(keys, count - 1, bound, head) {
            count -= 1;
        }
        count
    }
}

// Returns an index after a head that is below this one, or 0. If the heads are in order, it is how
// many are below. It looks at the first head of each block, and then at one block, each time at all
// of them, and is written without a branch that depends on a head.
#[inline(always)]
fn heads_below(heads: &[u32; FAN_OUT], head: u32) -> usize
    ensures within { result ≤ FAN_OUT }
    ensures below { 0 < result → get_or heads.now (result - 1) 0 < head }
    ensures filled { 0 < result → get_or heads.now (result - 1) 0 ≢ PADDING }
{
    let mut begin = 0;
    for block in 1..FAN_OUT / BLOCK {
        let index = BLOCK * block;
        if heads[index] < head {
            begin = index;
        }
    }
    let mut below = 0;
    for index in begin..begin + BLOCK {
        if heads[index] < head {
            below = index + 1;
        }
    }
    below
}

// Returns how many of the entries are below the bound, which come first.
fn lower_bound(keys: &Keys, entries: &[NodeEntry], bound: KeyBound<'_>) -> usize
    requires partitioned { IsPartitioned (λ e. is_below keys.now bound e.key) entries.now }
    ensures within { result ≤ length entries.now }
    ensures count { result ≡ length
        (filter (λ e. is_below keys.now bound.entry e.key) entries.now) }
{
    entries.partition_point(|entry| bound.is_below(keys, entry.key))
}
