//! The greatest version from the last boundary below one bound up to another one. Subtrees that
//! have none above a version are passed over.

ghost use Rattle.std.specs.Prelude.{◌≡◌, None, Some};
ghost use Rattle.boundaries.specs.Bound.{is_below};
ghost use Rattle.boundaries.specs.Finding.{CanStep, IsStep};
ghost use Rattle.boundaries.specs.Greatest.{AreNested, IsSought};
ghost use Rattle.boundaries.specs.Item.{IsMost, item_version, version_of};
ghost use Rattle.boundaries.specs.Path.{from_last, items_below};
ghost use Rattle.boundaries.specs.Position.{CanReach};
ghost use Rattle.boundaries.specs.Subtree.{items_in};

use crate::entry::NodeEntry;
use crate::key_bound::KeyBound;
use crate::node::{Node, Step};
use crate::store::Store;
use crate::tree::Root;
use arena::Slot;

// A bound that is sought in a subtree whose first key is below it.
#[derive(Clone, Copy)]
struct Sought<'a> {
    bound: KeyBound<'a>,
    // How many bytes that key and the bound's begin with in common.
    common_prefix_len: usize,
}

impl<'a> Sought<'a> {
    // Returns the bound at a subtree.
    fn new(bound: KeyBound<'a>, common_prefix_len: usize) -> Self
        ensures sought { result ≡ record {
          bound = bound.entry;
          common_prefix_len = common_prefix_len;
        } }
    {
        Sought {
            bound,
            common_prefix_len,
        }
    }

    // Finds the last entry of a node below the bound.
    fn step(self, store: &Store, node: &Node) -> Step
        requires can_step { CanStep store.now.keys self.bound node.now self.common_prefix_len }
        ensures step { IsStep store.now.keys self.entry.bound node.now result }
    {
        node.step(&store.keys, self.bound, self.common_prefix_len)
    }
}

/// Returns the greatest of this version and those of the boundaries below the second bound, of
/// those below the first one the last alone.
pub fn greatest(store: &Store, root: &Root, from: KeyBound<'_>, to: KeyBound<'_>, least: i64) -> i64
    requires from { CanReach store.now from root.now.height root.now.slot }
    requires to { CanReach store.now to root.now.height root.now.slot }
    requires nested { AreNested store.now.keys from to }
    ensures most { IsMost item_version least (from_last (is_below store.now.keys from.entry)
        (Some (is_below store.now.keys to.entry))
        (items_in store.now.nodes root.now.height root.now.slot)) result }
{
    // The first key is empty.
    let (from, to) = (Sought::new(from, 0), Sought::new(to, 0));
    greatest_between(store, root.slot, root.height, from, to, least)
}

// Returns the same for a subtree.
fn greatest_between(
    store: &Store,
    slot: Slot,
    height: usize,
    from: Sought<'_>,
    to: Sought<'_>,
    least: i64,
) -> i64
    requires from { IsSought store.now from height slot }
    requires to { IsSought store.now to height slot }
    requires nested { AreNested store.now.keys from.bound to.bound }
    ensures most { IsMost item_version least (from_last (is_below store.now.keys from.entry.bound)
        (Some (is_below store.now.keys to.entry.bound))
        (items_in store.now.nodes height slot)) result }
{
    let node = store.nodes.header_ref(slot);
    let entries = node.entries();
    let (first, last) = (from.step(store, node), to.step(store, node));
    if height == 0 {
        return greatest_of(&entries[first.index..last.index + 1], least);
    }
    let from = Sought::new(from.bound, first.common_prefix_len);
    let to = Sought::new(to.bound, last.common_prefix_len);
    let (left, right) = (entries[first.index], entries[last.index]);
    if first.index == last.index {
        if left.version <= least {
            return least;
        }
        return greatest_between(store, left.child, height - 1, from, to, least);
    }
    let mut most = greatest_of(&entries[first.index + 1..last.index], least);
    if left.version > most {
        most = greatest_from(store, left.child, height - 1, from, most);
    }
    if right.version > most {
        most = greatest_to(store, right.child, height - 1, to, most);
    }
    most
}

// Returns the greatest of this version and those of a subtree's boundaries from the last one below
// the bound on.
fn greatest_from(store: &Store, slot: Slot, height: usize, from: Sought<'_>, least: i64) -> i64
    requires from { IsSought store.now from height slot }
    ensures most { IsMost item_version least (from_last (is_below store.now.keys from.entry.bound)
        None (items_in store.now.nodes height slot)) result }
{
    let node = store.nodes.header_ref(slot);
    let entries = node.entries();
    let step = from.step(store, node);
    if height == 0 {
        return greatest_of(&entries[step.index..], least);
    }
    let most = greatest_of(&entries[step.index + 1..], least);
    let entry = entries[step.index];
    if entry.version <= most {
        return most;
    }
    let from = Sought::new(from.bound, step.common_prefix_len);
    greatest_from(store, entry.child, height - 1, from, most)
}

// Returns the greatest of this version and those of a subtree's boundaries below the bound.
fn greatest_to(store: &Store, slot: Slot, height: usize, to: Sought<'_>, least: i64) -> i64
    requires to { IsSought store.now to height slot }
    ensures most { IsMost item_version least (items_below (is_below store.now.keys to.entry.bound)
        (items_in store.now.nodes height slot)) result }
{
    let node = store.nodes.header_ref(slot);
    let entries = node.entries();
    let step = to.step(store, node);
    if height == 0 {
        return greatest_of(&entries[..step.index + 1], least);
    }
    let most = greatest_of(&entries[..step.index], least);
    let entry = entries[step.index];
    if entry.version <= most {
        return most;
    }
    let to = Sought::new(to.bound, step.common_prefix_len);
    greatest_to(store, entry.child, height - 1, to, most)
}

// Returns the greatest of this version and those of the entries.
fn greatest_of(entries: &[NodeEntry], least: i64) -> i64
    ensures most { IsMost version_of least entries.now result }
{
    let mut most = least;
    for entry in entries {
        most = most.max(entry.version);
    }
    most
}
