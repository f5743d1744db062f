//! The way down a tree by what its nodes know of the bytes of keys.

ghost use Rattle.std.specs.Prelude.{◌<◌, length};
ghost use Rattle.boundaries.specs.Node.{entries_of};
ghost use Rattle.boundaries.specs.Position.{CanSearch, IsChildPosition, IsFoundLeaf};

use crate::entry::key_at;
use crate::key_bound::KeyBound;
use crate::node::{Node, Step};
use crate::store::Store;
use arena::Slot;

/// Where a walk by a bound has come to: a subtree whose first key is below the bound.
#[derive(Clone, Copy, Debug)]
pub struct Position {
    pub slot: Slot,
    /// How many bytes the first key of the subtree and that of the bound begin with in common.
    pub common_prefix_len: usize,
    /// The key of the first boundary after the subtree.
    pub following: Option<Slot>,
}

impl Position {
    /// Returns the position at the child of a node to which a step leads.
    pub fn child(self, node: &Node, step: Step) -> Position
        requires within { step.index < length (entries_of node.now) }
        ensures child { IsChildPosition self node.now step result }
    {
        let entries = node.entries();
        Position {
            slot: entries[step.index].child,
            common_prefix_len: step.common_prefix_len,
            following: key_at(entries, step.index + 1, self.following),
        }
    }
}

/// Finds the leaf that has the last boundary below the bound.
pub fn find(store: &Store, height: usize, bound: KeyBound<'_>, position: Position) -> Position
    requires can_search { CanSearch store.now bound height position.slot
        position.common_prefix_len }
    ensures found { IsFoundLeaf store.now bound.entry height position result }
{
    if height == 0 {
        return position;
    }
    let node = store.nodes.header_ref(position.slot);
    let step = node.step(&store.keys, bound, position.common_prefix_len);
    find(store, height - 1, bound, position.child(node, step))
}
