//! Entries that replace others of a node.

ghost use Rattle.std.specs.Prelude.{◌≡◌, ◌≤◌, length};

use super::{FAN_OUT, HALF_FULL, Node};
use crate::entry::NodeEntry;
use crate::key_bound::Keys;

/// One entry or two, which replace those of a node from one index up to another.
#[derive(Clone, Copy, Debug)]
pub struct Splice<'a> {
    pub from: usize,
    pub to: usize,
    pub new: &'a [NodeEntry],
    /// Their heads, if their keys begin as all others do. Else all heads are computed anew.
    pub heads: Option<[u32; 2]>,
    ghost few: { length new.now ≤ 2 },
}

impl<'a> Splice<'a> {
    /// Returns the replacement of the entries from one index up to another.
    pub fn new(from: usize, to: usize, new: &'a [NodeEntry], heads: Option<[u32; 2]>) -> Self
        requires few { length new.now ≤ 2 }
        ensures run { (result.from ≡ from) × (result.to ≡ to) }
        ensures new { result.new.now ≡ new.now }
        ensures heads { result.heads ≡ heads }
    {
        Splice {
            from,
            to,
            new,
            heads,
        }
    }
}

impl Node {
    ghost use Rattle.std.specs.Prelude.{◌≡◌, ◌<◌, ◌≤◌, ◌++◌, length, take, drop, IfSome};
    ghost use Rattle.boundaries.specs.Node.{IsHeaded, ShareHeads, entries_of, key_heads_of};
    ghost use Rattle.boundaries.specs.Splice.{AreHalfFull, CanSplice, spliced};
    ghost use Rattle.boundaries.specs.declared.node.TheConstants.{FAN_OUT};

    /// Replaces entries.
    pub fn splice(&mut self, keys: &Keys, splice: Splice<'_>)
        requires can_splice { CanSplice keys.now self.old splice }
        requires room { length (spliced splice (entries_of self.old)) ≤ FAN_OUT }
        ensures entries { entries_of self.new ≡ spliced splice.entry (entries_of self.old) }
        ensures headed { IsHeaded keys.now self.new }
    {
        let Splice {
            from,
            to,
            new,
            heads,
        } = splice;
        let Some(heads) = heads else {
            self.replace(from, to, new, None);
            return self.compute_heads(keys);
        };
        self.replace(from, to, new, Some(front(&heads, new.len())));
    }

    /// Replaces entries if there is no room for all. The entries of the second half are returned.
    pub fn splice_apart(&mut self, keys: &Keys, splice: Splice<'_>) -> Node
        requires can_splice { CanSplice keys.now self.old splice }
        requires many { FAN_OUT < length (spliced splice (entries_of self.old)) }
        ensures entries { entries_of self.new ++ entries_of result
            ≡ spliced splice.entry (entries_of self.old) }
        ensures filled { AreHalfFull (entries_of self.new) (entries_of result) }
        ensures headed { IsHeaded keys.now self.new × IsHeaded keys.now result }
    {
        let mut right = self.replace_apart(splice);
        if splice.heads.is_some() {
            self.lengthen_prefix(keys);
            right.lengthen_prefix(keys);
        } else {
            self.compute_heads(keys);
            right.compute_heads(keys);
        }
        right
    }

    // Replaces entries so that both halves are full enough, and their heads if these are given.
    fn replace_apart(&mut self, splice: Splice<'_>) -> Node
        requires ordered { splice.from ≤ splice.to }
        requires within { splice.to ≤ length (entries_of self.old) }
        requires many { FAN_OUT < length (spliced splice (entries_of self.old)) }
        ensures entries { entries_of self.new ++ entries_of result
            ≡ spliced splice.entry (entries_of self.old) }
        ensures filled { AreHalfFull (entries_of self.new) (entries_of result) }
        ensures heads { IfSome splice.entry.heads (λ heads. ShareHeads self.old self.new result
            (take splice.entry.from (key_heads_of self.old).heads
            ++ (take (length splice.entry.new.now) heads
            ++ drop splice.entry.to (key_heads_of self.old).heads))) }
    {
        let Splice { from, to, new, .. } = splice;
        let heads = match &splice.heads {
            Some(heads) => Some(front(heads, new.len())),
            None => None,
        };
        let half = self.len - HALF_FULL;
        if to <= half {
            let right = self.split_off(half);
            self.replace(from, to, new, heads);
            return right;
        }
        let mut right = self.split_off(HALF_FULL);
        right.replace(from - HALF_FULL, to - HALF_FULL, new, heads);
        right
    }
}

ghost use Rattle.std.specs.Prelude.{take};

// Returns the first of two heads, or both.
fn front(heads: &[u32; 2], count: usize) -> &[u32]
    requires few { count ≤ 2 }
    ensures front { result.now ≡ take count heads.now }
    ensures len { length result.now ≡ count }
{
    &heads[..count]
}
