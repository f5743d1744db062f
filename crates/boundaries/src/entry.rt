//! An entry of a node.

ghost use Rattle.std.specs.Prelude.{◌≡◌, drop, map};
ghost use Rattle.boundaries.specs.Item.{item_of};
ghost use Rattle.boundaries.specs.Path.{first_key};

use arena::Slot;

/// The entry of a node for a boundary, or for the subtree of a child.
#[derive(Clone, Copy, Debug, Default, PartialEq, Eq)]
pub struct NodeEntry {
    /// The key of the boundary, or of the first one of the subtree.
    pub key: Slot,
    /// The child's slot. In a leaf it is the key's.
    pub child: Slot,
    /// The version of the boundary, or the greatest one of the subtree.
    pub version: i64,
}

impl NodeEntry {
    /// Returns the entry of a boundary.
    pub fn of(key: Slot, version: i64) -> Self
        ensures item { item_of result ≡ record { key = key; version = version } }
    {
        NodeEntry {
            key,
            child: key,
            version,
        }
    }
}

/// Returns the key of the entry at an index, or `following` if there is none.
pub fn key_at(entries: &[NodeEntry], index: usize, following: Option<Slot>) -> Option<Slot>
    ensures key { result ≡ first_key following (map item_of (drop index entries.now)) }
{
    match entries.get(index) {
        Some(entry) => Some(entry.key),
        None => following,
    }
}
