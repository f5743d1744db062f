//! The change of a tree: a walk to a leaf, a change of the leaf in place, and the rebalancing of
//! the nodes above it.

ghost use Rattle.std.specs.Prelude.{◌≡◌, ◌++◌, ℕ, List, Option};
ghost use Rattle.boundaries.specs.Bound.{Keys, is_below};
ghost use Rattle.boundaries.specs.Item.{Item};
ghost use Rattle.boundaries.specs.Children.{items_with};
ghost use Rattle.boundaries.specs.Rebalancing.{KeepsKeys};
ghost use Rattle.boundaries.specs.Subtree.{items_in};
ghost use Rattle.boundaries.specs.Walk.{added_by, CanChangeLeaf, IsChanged, IsChangedWithin};
ghost use Rattle.boundaries.specs.declared.key_bound.KeyBound.{KeyBound as BoundValue};
ghost use Rattle.boundaries.specs.declared.store.Store.{Store as StoreValue};

use crate::descent::Position;
use crate::key_bound::KeyBound;
use crate::path_cache::PathCache;
use crate::store::Store;
use arena::Slot;

/// A leaf that a boundary of a version came into. Each entry above it has this version, so that
/// another one may come in without a walk.
#[derive(Clone, Copy, Debug)]
pub struct RaisedLeaf {
    pub slot: Slot,
    pub version: i64,
    /// The index at which the boundary came in. Others may have moved there since.
    pub index: usize,
}

/// The outcome of a change for a subtree.
#[derive(Clone, Copy, Debug)]
pub enum LeafOutcome {
    /// It is unchanged.
    Same,
    /// Its first key is as it was, and a boundary came into this leaf of it; no other one has a
    /// version that none had before. A leaf has enough entries, and a node above lost none.
    Raised(RaisedLeaf),
    /// Its boundaries have changed.
    Changed,
    /// It was split: this is the slot of its right neighbour.
    Split(Slot),
}

/// A change of one leaf: the one that has the last boundary below a bound.
pub trait LeafChange {
    // The bound by which the leaf is found.
    ghost bound_of: { Self → BoundValue };

    // What the change requires of the items of the leaf.
    ghost wants: { Self → Keys → List Item → Type 0 };

    // What the change makes of them: itself and the store before and after, the key of the first
    // item after them, the items before, and the items now.
    ghost gives: { Self → Self → StoreValue → StoreValue → Option ℕ → List Item → List Item
        → Type 0 };

    /// Returns the bound by which the leaf is found.
    fn bound(&self) -> KeyBound<'_>
        ensures bound { result ≡ bound_of self.now };

    /// Returns whether the next change is likely to come to the next leaf, so that its memory is
    /// read ahead.
    fn goes_along(&self) -> bool;

    /// Changes the leaf in place.
    fn change(&mut self, store: &mut Store, position: Position) -> LeafOutcome
        requires can_change { CanChangeLeaf (bound_of self.old) (wants self.old) store.old 0
            position }
        ensures changed { IsChanged store.old store.new 0 position.slot result }
        ensures items { gives self.old self.new store.old store.new position.following
            (items_in store.old.nodes 0 position.slot)
            (items_with store.new.nodes 0 position.slot (added_by result)) }
        ensures bound { bound_of self.new ≡ bound_of self.old };

    // If the requirement holds of items, it holds of a part of them.
    ghost part: { (change : Self) (keys : Keys) (before items following : List Item)
        → wants change keys (before ++ (items ++ following))
        → wants change keys items };

    // What it makes of them goes by the keys, and by what is removed.
    ghost kept: { (change changed : Self) (old between new : StoreValue) (next : Option ℕ)
        (was now : List Item) → KeepsKeys between new
        → gives change changed old between next was now
        → gives change changed old new next was now };
}

/// Changes a leaf of a subtree, and rebalances the nodes above it. Takes at most one slot at each
/// height. It tries the way that it is given first, which may be any, and remembers its own there.
pub fn change_leaf<C: LeafChange>(
    store: &mut Store,
    height: usize,
    position: Position,
    change: &mut C,
    path_cache: &mut PathCache,
) -> LeafOutcome
    requires can_change { CanChangeLeaf (C.bound_of change.old) (C.wants change.old) store.old
        height position }
    ensures changed { IsChanged store.old store.new height position.slot result }
    ensures items { IsChangedWithin (is_below store.old.keys (C.bound_of change.old))
        (C.gives change.old change.new store.old store.new) position.following
        (items_in store.old.nodes height position.slot)
        (items_with store.new.nodes height position.slot (added_by result)) }
    ensures bound { C.bound_of change.new ≡ C.bound_of change.old }
{
    if height == 0 {
        return change.change(store, position);
    }
    let slot = position.slot;
    let node = store.nodes.header_ref(slot);
    let known = position.common_prefix_len;
    let step = path_cache.step(node, height, &store.keys, change.bound(), known);
    if height == 1 && change.goes_along() {
        path_cache.read_ahead(&store.nodes, node.entries().get(step.index + 1));
    }
    let below = position.child(node, step);
    match change_leaf(store, height - 1, below, change, path_cache) {
        LeafOutcome::Same => LeafOutcome::Same,
        LeafOutcome::Raised(leaf) => store.raise_entry(slot, step.index, leaf),
        LeafOutcome::Changed => {
            store.rebalance_child(slot, step.index);
            LeafOutcome::Changed
        }
        LeafOutcome::Split(added) => match store.insert_child(slot, step.index, added) {
            Some(added) => LeafOutcome::Split(added),
            None => LeafOutcome::Changed,
        },
    }
}
