//! The memory of boundaries: keys and nodes.

ghost use Rattle.std.specs.Prelude.{◌≡◌, ◌<◌, ◌≤◌, ◌+◌, ◌++◌, ℕ, [], length, nat_eq};
ghost use Rattle.std.specs.List.{All, Contains, IsDistinct};
ghost use Rattle.std.specs.FinMap as finite;
ghost use Rattle.arena.specs.Arena.{IsLive, record_at, spare_of};
ghost use Rattle.boundaries.specs.Children.{IsKeyless};
ghost use Rattle.boundaries.specs.Heads.{AllAreHeads, IsKnown, KeyBytes};
ghost use Rattle.boundaries.specs.Item.{Describes};
ghost use Rattle.boundaries.specs.Node.{all_heads_of, keys_of};
ghost use Rattle.boundaries.specs.Rebalancing.{IsPlaced, KeepsKeys};
ghost use Rattle.boundaries.specs.Subtree.{entries_at, items_in, IsSubtree};
ghost use Rattle.boundaries.specs.declared.node.TheConstants.{FAN_OUT};

use crate::entry::NodeEntry;
use crate::key_bound::Keys;
use crate::node::{FAN_OUT, Node};
use arena::{Arena, Slot};
use arrayvec::ArrayVec;

/// The keys of boundaries, and the nodes of the tree over them.
#[derive(Drop)]
pub struct Store {
    pub keys: Keys,
    pub nodes: Arena<Node>,
    /// The keys of boundaries that were removed. They are released after the nodes above their leaf
    /// have changed. It is a field since a new one for each write would be cleared each time.
    pub removed: ArrayVec<Slot, FAN_OUT>,
}

impl Store {
    /// Stores a node in a spare slot.
    pub fn place(&mut self, node: Node) -> Slot
        requires keyless { IsKeyless self.old.nodes }
        requires room { 0 < spare_of self.old.nodes 0 }
        ensures placed { IsPlaced self.old.nodes self.new.nodes node result }
        ensures keeps { KeepsKeys self.old self.new }
    {
        self.nodes.place(node, &[]).unwrap()
    }

    /// Returns the entry for a child.
    pub fn entry_for(&self, child: Slot) -> NodeEntry
        requires live { IsLive self.now.nodes child }
        requires some { 0 < length (entries_at self.now.nodes child) }
        ensures child { result.child ≡ child }
        ensures describes { (height least : ℕ) → IsSubtree self.now.nodes least height child
            → Describes result (items_in self.now.nodes height child) }
        ensures known { (bytes : KeyBytes) → AllAreHeads bytes (all_heads_of self.now.nodes)
            → IsKnown bytes result.key }
    {
        let node = self.nodes.header_ref(child);
        NodeEntry {
            key: node.entries()[0].key,
            child,
            version: node.greatest(),
        }
    }

    /// Releases the removed keys.
    pub fn release_removed(&mut self)
        requires live { All (IsLive self.old.keys) self.old.removed.items }
        requires distinct { IsDistinct nat_eq self.old.removed.items }
        ensures none { self.new.removed.items ≡ [] }
        ensures nodes { self.new.nodes ≡ self.old.nodes }
        ensures others { (slot : ℕ) → ¬ Contains self.old.removed.items slot
            → record_at self.new.keys slot ≡ record_at self.old.keys slot }
        ensures counted { finite.len self.new.keys.records + length self.old.removed.items
            ≡ finite.len self.old.keys.records }
        ensures spare { (size : ℕ) → spare_of self.old.keys size ≤ spare_of self.new.keys size }
    {
        release(&mut self.keys, self.removed.as_slice());
        self.removed.clear();
    }
}

// Releases keys.
fn release(keys: &mut Keys, slots: &[Slot])
    requires live { All (IsLive keys.old) slots.now }
    requires distinct { IsDistinct nat_eq slots.now }
    ensures others { (slot : ℕ) → ¬ Contains slots.now slot
        → record_at keys.new slot ≡ record_at keys.old slot }
    ensures counted { finite.len keys.new.records + length slots.now
        ≡ finite.len keys.old.records }
    ensures spare { (size : ℕ) → spare_of keys.old size ≤ spare_of keys.new size }
{
    for slot in slots {
        keys.release(*slot);
    }
}

/// Adds the keys of entries, mostly of none or a few, to those that are removed.
pub fn put_removed(removed: &mut ArrayVec<Slot, FAN_OUT>, entries: &[NodeEntry])
    requires room { length removed.old.items + length entries.now ≤ FAN_OUT }
    ensures removed { removed.new.items ≡ removed.old.items ++ keys_of entries.now }
{
    for entry in entries {
        removed.push(entry.key);
    }
}
