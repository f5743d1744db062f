//! The way of the last walk, from the root towards a leaf: a guess for the next one.

ghost use Rattle.boundaries.specs.Finding.{CanStep, IsStep};

use crate::entry::NodeEntry;
use crate::key_bound::{KeyBound, Keys};
use crate::node::{Node, Step};
use arena::Arena;

// How many heights are remembered. No leaf has more than 62 nodes above it.
const HEIGHTS: usize = 64;

/// Through which entry the last walk went at each height.
///
/// The changes of a batch come in the order of keys, so that the next walk often goes through the
/// same entries of upper nodes. No contract says anything of these indices: they may be any.
#[derive(Clone, Copy, Debug)]
pub struct PathCache {
    indices: [usize; HEIGHTS],
    // What was read ahead of leaves. It says nothing, and is kept so that the compiler doesn't omit
    // the read.
    read: usize,
}

impl PathCache {
    /// Returns a way through the first entries.
    pub fn new() -> Self {
        PathCache {
            indices: [0; HEIGHTS],
            read: 0,
        }
    }

    /// Finds the last entry of a node below the bound, as `Node::step` does. It tries the entry
    /// that the last walk went through at this height first, unless the node stands right above the
    /// leaves: there it is seldom the same.
    #[inline(always)]
    pub fn step(
        &mut self,
        node: &Node,
        height: usize,
        keys: &Keys,
        bound: KeyBound<'_>,
        common_prefix_len: usize,
    ) -> Step
        requires can_step { CanStep keys.now bound node.now common_prefix_len }
        ensures step { IsStep keys.now bound.entry node.now result }
    {
        if height < 2 || height >= HEIGHTS {
            return node.step(keys, bound, common_prefix_len);
        }
        let step = node.step_by_guess(keys, bound, common_prefix_len, self.indices[height]);
        self.indices[height] = step.index;
        step
    }

    /// Reads the first memory of the leaf of an entry, if there is one, so that it needn't be
    /// waited for when a walk comes there.
    pub fn read_ahead(&mut self, nodes: &Arena<Node>, entry: Option<&NodeEntry>) {
        if let Some(entry) = entry
            && nodes.is_live(entry.child)
        {
            self.read ^= nodes.header_ref(entry.child).len();
        }
    }
}
