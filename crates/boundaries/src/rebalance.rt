//! A node whose child has changed. Its entry for the child is updated. If necessary, the node is
//! split, or children are merged or share their entries evenly.

ghost use Rattle.std.specs.Prelude.{◌≡◌, ◌≤◌, ◌<◌, ◌+◌, ◌⊎◌, ◌++◌, ◌∷◌, ℕ, [], length, take, drop};
ghost use Rattle.std.specs.Prelude.{None};
ghost use Rattle.boundaries.specs.Children.{Changes, IsFamilyAt, IsLinked, IsRebalancedAt};
ghost use Rattle.boundaries.specs.Children.{child_at, entries_at_both, DescribesWritten};
ghost use Rattle.boundaries.specs.Children.{HasRaisedEntry};
ghost use Rattle.boundaries.specs.Rebalancing.{AreTwo, CanInsertChild, CanMerge, CanRaise};
ghost use Rattle.boundaries.specs.Rebalancing.{CanRebalance, CanSpliceAt, IsStored, KeepsKeys};
ghost use Rattle.boundaries.specs.Rebalancing.{LosesOneAtMost};
ghost use Rattle.boundaries.specs.Splice.{AreHalfFull, spliced};
ghost use Rattle.boundaries.specs.Store.{AreHeaded};
ghost use Rattle.boundaries.specs.Subtree.{entries_at};
ghost use Rattle.boundaries.specs.declared.node.TheConstants.{FAN_OUT, HALF_FULL};

use crate::entry::NodeEntry;
use crate::node::{FAN_OUT, HALF_FULL, Splice};
use crate::store::Store;
use crate::walk::{LeafOutcome, RaisedLeaf};
use arena::Slot;

impl Store {
    /// Updates the entry at an index of the node at a slot, whose child was split, and puts one for
    /// the child's right neighbour after it. Returns the slot of the node's own right neighbour if
    /// it is split, too.
    pub fn insert_child(&mut self, slot: Slot, index: usize, added: Slot) -> Option<Slot>
        requires can_insert { CanInsertChild self.old slot index added }
        ensures linked { IsLinked self.old.nodes
            (child_at (entries_at self.old.nodes slot) index) added
            (take index (entries_at self.old.nodes slot))
            (drop (index + 1) (entries_at self.old.nodes slot))
            (entries_at_both self.new.nodes slot result) }
        ensures stored { IsStored self.old self.new slot result }
        ensures keeps { KeepsKeys self.old self.new }
    {
        let child = self.nodes.header_ref(slot).entries()[index].child;
        let new = [self.entry_for(child), self.entry_for(added)];
        let node = self.nodes.header_ref(slot);
        let first = node.head_of(&self.keys, new[0].key, index);
        let second = node.head_of(&self.keys, new[1].key, index);
        let heads = match (first, second) {
            (Some(first), Some(second)) => Some([first, second]),
            _ => None,
        };
        self.splice(slot, Splice::new(index, index + 1, &new, heads))
    }

    /// Replaces entries of the node at a slot. Returns the slot of its right neighbour if there is
    /// no room for all, so that it is split.
    #[inline(always)]
    pub fn splice(&mut self, slot: Slot, splice: Splice<'_>) -> Option<Slot>
        requires can_splice { CanSpliceAt self.old slot splice }
        ensures entries { entries_at_both self.new.nodes slot result
            ≡ spliced splice.entry (entries_at self.old.nodes slot) }
        ensures stored { IsStored self.old self.new slot result }
        ensures fits { length (spliced splice.entry (entries_at self.old.nodes slot)) ≤ FAN_OUT
            → result ≡ None }
        ensures keeps { KeepsKeys self.old self.new }
    {
        let node = self.nodes.header_mut(slot);
        if splice.from + splice.new.len() <= FAN_OUT - (node.len() - splice.to) {
            node.splice(&self.keys, splice);
            return None;
        }
        let right = node.splice_apart(&self.keys, splice);
        Some(self.place(right))
    }

    /// Updates the entry at an index of the node at a slot, whose child has changed. The node is
    /// changed in place, unless the child has too few entries.
    pub fn rebalance_child(&mut self, slot: Slot, index: usize)
        requires can_rebalance { CanRebalance self.old slot index }
        ensures rebalanced { (height : ℕ)
            → IsFamilyAt self.old.nodes HALF_FULL height slot index (index + 1)
            → IsRebalancedAt self.old.nodes self.new.nodes HALF_FULL height slot }
        ensures rest { LosesOneAtMost self.old self.new slot }
    {
        let child = self.nodes.header_ref(slot).entries()[index].child;
        if self.nodes.header_ref(child).len() < HALF_FULL {
            return self.merge_or_redistribute(slot, index.saturating_sub(1));
        }
        let entry = self.entry_for(child);
        let node = self.nodes.header_mut(slot);
        node.set_with_head(&self.keys, index, entry);
    }

    /// Updates the entry at an index of the node at a slot. A boundary came into this leaf of the
    /// entry's child, which has enough entries. Returns the outcome for the node.
    #[inline(always)]
    pub fn raise_entry(&mut self, slot: Slot, index: usize, leaf: RaisedLeaf) -> LeafOutcome
        requires can_raise { CanRaise self.old slot index }
        ensures rebalanced { (height : ℕ)
            → IsFamilyAt self.old.nodes HALF_FULL height slot index (index + 1)
            → DescribesWritten self.old.nodes height slot index leaf.version
            → IsRebalancedAt self.old.nodes self.new.nodes HALF_FULL height slot }
        ensures rest { LosesOneAtMost self.old self.new slot }
        ensures outcome { (result ≡ LeafOutcome.Changed)
            ⊎ ((result ≡ LeafOutcome.Raised leaf)
            × HasRaisedEntry self.old.nodes self.new.nodes slot index leaf.version) }
    {
        let entry = self.nodes.header_ref(slot).entries()[index];
        if entry.version > leaf.version {
            self.rebalance_child(slot, index);
            return LeafOutcome::Changed;
        }
        let raised = NodeEntry {
            version: leaf.version,
            ..entry
        };
        self.nodes.header_mut(slot).set(index, raised);
        LeafOutcome::Raised(leaf)
    }

    // Merges the child at an index of the node at a slot and the next child, or shares their
    // entries evenly if there are too many for one node.
    fn merge_or_redistribute(&mut self, slot: Slot, index: usize)
        requires can_merge { CanMerge self.old slot index }
        ensures rebalanced { (height : ℕ)
            → IsFamilyAt self.old.nodes HALF_FULL height slot index (index + 2)
            → IsRebalancedAt self.old.nodes self.new.nodes HALF_FULL height slot }
        ensures rest { LosesOneAtMost self.old self.new slot }
    {
        let entries = self.nodes.header_ref(slot).entries();
        let (first, second) = (entries[index].child, entries[index + 1].child);
        let count = self.nodes.header_ref(first).len() + self.nodes.header_ref(second).len();
        if count <= FAN_OUT {
            self.merge(first, second);
            let entry = self.entry_for(first);
            let node = self.nodes.header_mut(slot);
            node.set_with_head(&self.keys, index, entry);
            node.remove(index + 1, index + 2);
            return node.lengthen_prefix(&self.keys);
        }
        self.redistribute(first, second);
        let new = [self.entry_for(first), self.entry_for(second)];
        let node = self.nodes.header_mut(slot);
        node.set_with_head(&self.keys, index, new[0]);
        node.set_with_head(&self.keys, index + 1, new[1]);
        node.lengthen_prefix(&self.keys);
    }

    // Puts the entries of the second node after those of the first one, and releases the second.
    fn merge(&mut self, first: Slot, second: Slot)
        requires two { AreTwo self.old first second }
        requires room { length (entries_at self.old.nodes first)
            + length (entries_at self.old.nodes second) ≤ FAN_OUT }
        ensures entries { entries_at self.new.nodes first
            ≡ entries_at self.old.nodes first ++ entries_at self.old.nodes second }
        ensures changes { Changes self.old.nodes self.new.nodes (first ∷ second ∷ [])
            (first ∷ []) }
        ensures headed { AreHeaded self.new }
        ensures keeps { KeepsKeys self.old self.new }
    {
        let right = self.nodes.header(second);
        let left = self.nodes.header_mut(first);
        left.insert(&self.keys, left.len(), &right);
        self.nodes.release(second);
    }

    // Moves entries between two nodes so that their numbers differ by at most one.
    fn redistribute(&mut self, first: Slot, second: Slot)
        requires two { AreTwo self.old first second }
        requires many { FAN_OUT < length (entries_at self.old.nodes first)
            + length (entries_at self.old.nodes second) }
        ensures entries { entries_at self.new.nodes first ++ entries_at self.new.nodes second
            ≡ entries_at self.old.nodes first ++ entries_at self.old.nodes second }
        ensures filled { AreHalfFull (entries_at self.new.nodes first)
            (entries_at self.new.nodes second) }
        ensures changes { Changes self.old.nodes self.new.nodes (first ∷ second ∷ [])
            (first ∷ second ∷ []) }
        ensures headed { AreHeaded self.new }
        ensures keeps { KeepsKeys self.old self.new }
    {
        let left = self.nodes.header_ref(first).len();
        let half = (left + self.nodes.header_ref(second).len()) / 2;
        if left > half {
            let moved = self
                .nodes
                .header_mut(first)
                .take_out(&self.keys, half, left);
            return self.nodes.header_mut(second).insert(&self.keys, 0, &moved);
        }
        let moved = self
            .nodes
            .header_mut(second)
            .take_out(&self.keys, 0, half - left);
        self.nodes
            .header_mut(first)
            .insert(&self.keys, left, &moved);
    }
}
