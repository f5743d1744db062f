//! The tree over the keys of boundaries, and the change of its root when a leaf changes.

ghost use Rattle.std.specs.Prelude.{◌≡◌, map, None, Some};
ghost use Rattle.boundaries.specs.Bound.{is_below};
ghost use Rattle.boundaries.specs.Children.{items_with};
ghost use Rattle.boundaries.specs.Item.{item_version};
ghost use Rattle.boundaries.specs.Items.{IsLast};
ghost use Rattle.boundaries.specs.Overwrite.{bound_to, CanOverwrite, GivesWritten};
ghost use Rattle.boundaries.specs.Path.{first_key, items_not_below, items_below};
ghost use Rattle.boundaries.specs.Position.{CanReach};
ghost use Rattle.boundaries.specs.Rebalancing.{CanGrow, CanShrink, KeepsKeys};
ghost use Rattle.boundaries.specs.Subtree.{items_in};
ghost use Rattle.boundaries.specs.Walk.{CanChangeTree, IsChangedTree, IsNewTree, items_of_tree};

use crate::descent::{Position, find};
use crate::entry::{NodeEntry, key_at};
use crate::key_bound::KeyBound;
use crate::node::{Node, Splice};
use crate::overwrite::Overwrite;
use crate::path_cache::PathCache;
use crate::remembered::write_in_leaf;
use crate::run::Overwriting;
use crate::store::Store;
use crate::walk::{LeafChange, LeafOutcome, RaisedLeaf, change_leaf};
use arena::Slot;

/// The root of a tree.
#[derive(Clone, Copy, Debug)]
pub struct Root {
    pub slot: Slot,
    /// How many nodes are above each leaf.
    pub height: usize,
}

impl Root {
    /// Returns the position at the root of a tree, whose first key is empty.
    pub fn position(self) -> Position
        ensures position { result ≡ record {
          slot = self.slot;
          common_prefix_len = 0;
          following = None;
        } }
    {
        Position {
            slot: self.slot,
            common_prefix_len: 0,
            following: None,
        }
    }
}

/// A tree whose first key is empty.
#[derive(Drop)]
pub struct Tree {
    pub store: Store,
    pub root: Root,
    path_cache: PathCache,
    // the leaf of the last write, if the next one may continue there
    raised: Option<RaisedLeaf>,
}

impl Tree {
    /// Returns the tree of one leaf.
    pub fn new(store: Store, slot: Slot) -> Self
        ensures store { result.store ≡ store }
        ensures root { result.root ≡ record { slot = slot; height = 0 } }
        ensures raised { result.raised ≡ None }
    {
        Tree {
            store,
            root: Root { slot, height: 0 },
            path_cache: PathCache::new(),
            raised: None,
        }
    }

    /// Returns the version of the last boundary below the bound, and the key of the first one that
    /// isn't.
    pub fn version_and_next(&self, bound: KeyBound<'_>) -> (i64, Option<Slot>)
        requires can_reach { CanReach self.now.store bound self.now.root.height self.now.root.slot }
        ensures last { IsLast result.0 (map item_version
            (items_below (is_below self.now.store.keys bound.entry) (items_of_tree self.now))) }
        ensures next { result.1 ≡ first_key None
            (items_not_below (is_below self.now.store.keys bound.entry) (items_of_tree self.now)) }
    {
        let Store { keys, nodes, .. } = &self.store;
        let found = find(&self.store, self.root.height, bound, self.root.position());
        let leaf = nodes.header_ref(found.slot);
        let count = leaf.lower_bound(keys, bound, found.common_prefix_len);
        let entries = leaf.entries();
        let next = key_at(entries, count, found.following);
        (entries[count - 1].version, next)
    }

    /// Changes a leaf. A root that is split gets one above it, and one with a single child gives
    /// its place to the child.
    pub fn change<C: LeafChange>(&mut self, change: &mut C)
        requires can_change { CanChangeTree (C.bound_of change.old) (C.wants change.old) self.old }
        ensures changed { IsChangedTree (C.bound_of change.old)
            (C.gives change.old change.new self.old.store self.new.store) self.old self.new }
    {
        let height = self.root.height;
        let start = self.root.position();
        let outcome = change_leaf(&mut self.store, height, start, change, &mut self.path_cache);
        self.raised = None;
        match outcome {
            LeafOutcome::Same => {}
            LeafOutcome::Raised(leaf) => self.raised = Some(leaf),
            LeafOutcome::Changed => self.root = shrink(&mut self.store, self.root),
            LeafOutcome::Split(added) => self.root = grow(&mut self.store, self.root, added),
        }
    }

    /// Writes over a range: in the leaf of the last write, if it continues there, or else by a
    /// walk. If several leaves have its boundaries and the one before them, it only removes those
    /// in the last of these leaves, and returns the version at the end.
    pub fn overwrite(&mut self, new: &Overwrite<'_>) -> Option<i64>
        requires can_overwrite { CanOverwrite self.old new.now }
        ensures written { IsChangedTree (bound_to new.now)
            (GivesWritten new.now result self.old.store self.new.store) self.old self.new }
    {
        if let Some(leaf) = self.raised
            && write_in_leaf(&mut self.store, leaf, new)
        {
            return None;
        }
        let mut overwriting = Overwriting { new, at_end: None };
        self.change(&mut overwriting);
        overwriting.at_end
    }
}

// Puts a new root over the old one and its right neighbour.
fn grow(store: &mut Store, root: Root, added: Slot) -> Root
    requires can_grow { CanGrow store.old root.height root.slot added }
    ensures items { items_in store.new.nodes result.height result.slot
        ≡ items_with store.old.nodes root.height root.slot (Some added) }
    ensures tree { IsNewTree store.old store.new result.slot result.height None }
    ensures keeps { KeepsKeys store.old store.new }
{
    let mut node = Node::of(store.entry_for(root.slot));
    node.compute_heads(&store.keys);
    let added = [store.entry_for(added)];
    node.splice(&store.keys, Splice::new(1, 1, &added, None));
    Root {
        slot: store.place(node),
        height: root.height + 1,
    }
}

// Makes the only child of a root the root.
fn shrink(store: &mut Store, root: Root) -> Root
    requires can_shrink { CanShrink store.old root.height root.slot }
    ensures items { items_in store.new.nodes result.height result.slot
        ≡ items_in store.old.nodes root.height root.slot }
    ensures tree { IsNewTree store.old store.new result.slot result.height None }
    ensures keeps { KeepsKeys store.old store.new }
{
    let entries = store.nodes.header_ref(root.slot).entries();
    if root.height == 0 || entries.len() > 1 {
        return root;
    }
    let slot = entries[0].child;
    store.nodes.release(root.slot);
    Root {
        slot,
        height: root.height - 1,
    }
}
