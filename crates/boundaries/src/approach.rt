//! The way of a question: down a tree to the leaf that answers it, or to a subtree that decides the
//! answer.

ghost use Rattle.std.specs.Prelude.{◌<◌, length};
ghost use Rattle.boundaries.specs.Finding.{HasHead};
ghost use Rattle.boundaries.specs.Node.{IsHeaded, entries_of};
ghost use Rattle.boundaries.specs.Path.{IsPartitioned};
ghost use Rattle.boundaries.specs.Question.{before_end, bound_before, CanAsk, IsApproach};
ghost use Rattle.boundaries.specs.Question.{IsAsked, IsHint, IsRestAt};

use crate::node::Node;
use crate::question::Question;
use crate::store::Store;
use crate::tree::Root;
use arena::Slot;

/// What is known of the boundaries after a subtree.
#[derive(Clone, Copy, Debug, Default, PartialEq, Eq)]
pub enum Rest {
    /// None comes before the end of a question.
    Clear,
    /// One may come before it.
    #[default]
    Open,
}

/// A subtree to which a way leads: a leaf in the end.
#[derive(Clone, Copy, Debug)]
pub struct Hint {
    pub slot: Slot,
    /// How many bytes the first key of the subtree and the question's begin with in common.
    pub common_prefix_len: usize,
    pub rest: Rest,
}

/// The end of the way of a question.
#[derive(Clone, Copy, Debug, Default)]
pub enum Approach {
    /// To a leaf, whose memory hasn't been read.
    Leaf(Hint),
    /// To a subtree which shows that no version is above the question's.
    Clear,
    /// Nowhere: the question goes down by both bounds.
    #[default]
    Open,
}

/// Goes down a tree, from its root towards the leaf that answers a question.
pub fn find_approach(store: &Store, root: &Root, question: &Question<'_>) -> Approach
    requires asked { CanAsk store.now root.now.height root.now.slot question.now }
    ensures approach { IsApproach store.now root.now.height root.now.slot Rest.Clear question.now
        result }
{
    let hint = Hint {
        slot: root.slot,
        common_prefix_len: 0,
        rest: Rest::Clear,
    };
    descend(store, root.height, hint, question)
}

// Goes down a subtree to the leaf that answers a question.
fn descend(store: &Store, height: usize, hint: Hint, question: &Question<'_>) -> Approach
    requires asked { IsAsked store.now height hint.slot question.now }
    requires hint { IsHint store.now question.now hint }
    ensures approach { IsApproach store.now height hint.slot hint.rest question.now result }
{
    if height == 0 {
        return Approach::Leaf(hint);
    }
    let node = store.nodes.header_ref(hint.slot);
    let known = hint.common_prefix_len;
    let head = node.head_for(&store.keys, question.from(), known);
    let step = node.step_by(&store.keys, question.from(), known, head);
    let entry = node.entries()[step.index];
    let decides = entry.version <= question.version;
    // Above the lowest inner node the next entry is looked at only if the subtree decides the
    // answer.
    let rest = if question.is_single || step.index + 1 == node.len() {
        hint.rest
    } else if decides || height == 1 {
        let common = question.common_prefix_len;
        let to_head = node.head_beside(&store.keys, question.to(), known, common, head);
        rest_at(store, node, step.index + 1, question, to_head)
    } else {
        Rest::Open
    };
    match rest {
        Rest::Clear if decides => Approach::Clear,
        Rest::Open if decides => Approach::Open,
        _ => {
            let below = Hint {
                slot: entry.child,
                common_prefix_len: step.common_prefix_len,
                rest,
            };
            descend(store, height - 1, below, question)
        }
    }
}

// Returns what is known of the boundaries from the entry at an index on. `head` is that of the
// question's end, if that begins as all keys of the node do.
fn rest_at(
    store: &Store,
    node: &Node,
    index: usize,
    question: &Question<'_>,
    head: Option<u32>,
) -> Rest
    requires headed { IsHeaded store.now.keys node.now }
    requires to { IsPartitioned (λ e. before_end store.now.keys question.now e.key)
        (entries_of node.now) }
    requires within { index < length (entries_of node.now) }
    requires head { HasHead store.now.keys (bound_before question.now) head node.now }
    ensures rest { IsRestAt store.now node.now index question.now result }
{
    if node.is_below_at(&store.keys, index, question.to(), head) {
        return Rest::Open;
    }
    Rest::Clear
}
