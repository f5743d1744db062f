//! The removal of expired boundaries, which no longer have an effect.

ghost use Rattle.std.specs.Prelude.{◌≡◌, ◌≢◌, ◌-◌, ◌≤◌, ◌<◌, ◌++◌, ◌↔◌, [], take, drop, length};
ghost use Rattle.std.specs.Prelude.{map, IsTrue};
ghost use Rattle.boundaries.specs.Item.{item_of, key_of, version_of};
ghost use Rattle.boundaries.specs.Heads.{AreHeads, KeyBytes};
ghost use Rattle.boundaries.specs.Node.{entries_of, key_heads_of};
ghost use Rattle.boundaries.specs.Path.{first_key};
ghost use Rattle.boundaries.specs.Expire.{GivesUnexpired, unexpired_kept};
ghost use Rattle.boundaries.specs.Items.{IsLast, unexpired_items, expired_items};

use crate::descent::Position;
use crate::entry::{NodeEntry, key_at};
use crate::key_bound::KeyBound;
use crate::node::{FAN_OUT, Node};
use crate::store::Store;
use crate::walk::{LeafChange, LeafOutcome};
use arena::Slot;
use arrayvec::ArrayVec;

/// How the removal of expired boundaries ended.
#[derive(Clone, Copy, Debug)]
pub struct Removal {
    /// How many boundaries were looked at.
    pub looked_at: usize,
    /// The version of the last of them.
    pub last: i64,
    /// The key of the boundary after those that were looked at, if there is one.
    pub next: Option<Slot>,
}

/// A run of a leaf's boundaries that begins with the last one below the bound, of which the expired
/// ones are removed.
#[derive(Debug, Drop)]
pub struct Expiring<'a> {
    pub bound: KeyBound<'a>,
    /// How many boundaries are looked at, at most: at least one.
    pub count: usize,
    pub edge: i64,
    /// The version of the boundary before the run.
    pub before: i64,
    /// How it ended.
    pub removal: Removal,
    ghost some: { 1 ≤ count },
}

impl<'a> Expiring<'a> {
    /// Returns the removal from this bound on.
    pub fn new(bound: KeyBound<'a>, count: usize, edge: i64, before: i64) -> Self
        requires some { 1 ≤ count }
        ensures bound { result.bound ≡ bound.entry }
        ensures count { result.count ≡ count }
        ensures versions { (result.edge ≡ edge) × (result.before ≡ before) }
    {
        Expiring {
            bound,
            count,
            edge,
            before,
            removal: Removal {
                looked_at: 0,
                last: before,
                next: None,
            },
        }
    }
}

impl<'a> LeafChange for Expiring<'a> {
    ghost bound_of = { λ t. t.bound };

    ghost wants = { λ t keys items. Unit {0} };

    ghost gives = { λ t done. GivesUnexpired t.bound t.count t.edge t.before done.removal };

    fn bound(&self) -> KeyBound<'_> {
        self.bound
    }

    // A sweep goes from leaf to leaf.
    fn goes_along(&self) -> bool {
        true
    }

    fn change(&mut self, store: &mut Store, position: Position) -> LeafOutcome {
        let leaf = store.nodes.header_ref(position.slot);
        let known = position.common_prefix_len;
        let begin = leaf.lower_bound(&store.keys, self.bound, known) - 1;
        let end = begin + self.count.min(leaf.len() - begin);
        self.removal = look_at(leaf.entries(), begin, end, position.following);
        if !has_expired(&leaf.entries()[begin..end], self.edge, self.before) {
            return LeafOutcome::Same;
        }
        let leaf = store.nodes.header_mut(position.slot);
        remove_expired(leaf, begin, end, self.edge, self.before, &mut store.removed);
        leaf.lengthen_prefix(&store.keys);
        LeafOutcome::Changed
    }

    ghost part = { λ t keys before items following wanted. wanted };

    ghost kept = { λ t done. unexpired_kept t.bound t.count t.edge t.before done.removal };
}

// Looks at the entries of a leaf from one index up to another, and returns the result of a removal.
// `following` is the key of the boundary after the leaf.
fn look_at(entries: &[NodeEntry], from: usize, to: usize, following: Option<Slot>) -> Removal
    requires some { from < to }
    requires within { to ≤ length entries.now }
    ensures looked_at { result.looked_at ≡ to - from }
    ensures last { IsLast result.last (map version_of (take (to - from) (drop from entries.now))) }
    ensures next { result.next ≡ first_key following (map item_of (drop to entries.now)) }
{
    Removal {
        looked_at: to - from,
        last: entries[to - 1].version,
        next: key_at(entries, to, following),
    }
}

// Returns whether the version of one of these entries and that of its predecessor are below `edge`.
// `before` is the version of the entry before the first of them.
fn has_expired(entries: &[NodeEntry], edge: i64, before: i64) -> bool
    ensures expired { IsTrue result ↔ (expired_items edge before (map item_of entries.now) ≢ []) }
{
    let mut last = before;
    for entry in entries {
        if last < edge && entry.version < edge {
            return true;
        }
        last = entry.version;
    }
    false
}

// Takes out those of the entries of a leaf from one index up to another whose version and
// predecessor's version are below `edge`, and puts their keys into `removed`. `before` is the
// version of the entry before the first of them.
fn remove_expired(
    node: &mut Node,
    from: usize,
    to: usize,
    edge: i64,
    before: i64,
    removed: &mut ArrayVec<Slot, FAN_OUT>,
)
    requires none_removed { removed.old.items ≡ [] }
    requires some { from < to }
    requires within { to ≤ length (entries_of node.old) }
    ensures kept { map item_of (entries_of node.new) ≡ map item_of (take from (entries_of node.old))
        ++ (unexpired_items edge before
        (map item_of (take (to - from) (drop from (entries_of node.old))))
        ++ map item_of (drop to (entries_of node.old))) }
    ensures removed { removed.new.items ≡ map key_of
        (expired_items edge before
        (map item_of (take (to - from) (drop from (entries_of node.old))))) }
    ensures headed { (bytes : KeyBytes) → AreHeads bytes (key_heads_of node.old)
        → AreHeads bytes (key_heads_of node.new) }
{
    let mut last = before;
    let mut kept = from;
    for index in from..to {
        let entry = node.entries()[index];
        let version = entry.version;
        if last >= edge || version >= edge {
            node.copy(index, kept);
            kept += 1;
        } else {
            removed.push(entry.key);
        }
        last = version;
    }
    node.remove(kept, to);
}
