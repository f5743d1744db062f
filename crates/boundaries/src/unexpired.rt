//! How many boundaries a sweep of all of them would leave.

ghost use Rattle.std.specs.Prelude.{◌≡◌, ◌+◌, ◌^◌, ◌<◌, ◌≤◌, ◌&&◌, ◌∷◌, ℕ, [], int_lt, length};
ghost use Rattle.std.specs.Prelude.{drop, map};
ghost use Rattle.boundaries.specs.Counted.{IsCounted, items_from};
ghost use Rattle.boundaries.specs.Item.{item_of};
ghost use Rattle.boundaries.specs.Items.{unexpired_items};
ghost use Rattle.boundaries.specs.Subtree.{entries_at, items_in, IsSubtree};
ghost use Rattle.boundaries.specs.declared.node.TheConstants.{HALF_FULL};

use crate::entry::NodeEntry;
use crate::store::Store;
use crate::tree::Root;
use arena::Slot;

// A count of boundaries.
#[derive(Clone, Copy, Debug)]
struct Unexpired {
    // How many of them a sweep would leave.
    count: usize,
    // The version of the last one, or what was given as the version before all of them.
    last: i64,
}

impl Unexpired {
    // Counts one boundary more, of this version.
    fn after(self, edge: i64, version: i64) -> Unexpired
        requires few { self.count + 1 < 2 ^ 64 }
        ensures counted { (key : ℕ) → IsCounted edge self
            (record { key = key; version = version } ∷ []) result }
    {
        let count = if is_expired(edge, self.last, version) {
            self.count
        } else {
            self.count + 1
        };
        Unexpired {
            count,
            last: version,
        }
    }
}

/// Counts the boundaries that a sweep of all of them would leave at this edge. It takes no memory.
pub fn count_unexpired(store: &Store, root: Root, edge: i64) -> usize
    requires subtree { IsSubtree store.now.nodes HALF_FULL root.height root.slot }
    requires few { length (items_in store.now.nodes root.height root.slot) < 2 ^ 64 }
    ensures count { result
        ≡ length (unexpired_items edge edge (items_in store.now.nodes root.height root.slot)) }
{
    // The first boundary stays, as if it came after a version that isn't below the edge.
    let none = Unexpired {
        count: 0,
        last: edge,
    };
    count_in(store, root.slot, root.height, 0, edge, none).count
}

// Counts the boundaries of a subtree from the entry at an index of its root on, too.
fn count_in(
    store: &Store,
    slot: Slot,
    height: usize,
    index: usize,
    edge: i64,
    before: Unexpired,
) -> Unexpired
    requires subtree { IsSubtree store.now.nodes HALF_FULL height slot }
    requires within { index ≤ length (entries_at store.now.nodes slot) }
    requires few { before.count + length
        (items_from store.now.nodes height (drop index (entries_at store.now.nodes slot)))
        < 2 ^ 64 }
    ensures counted { IsCounted edge before
        (items_from store.now.nodes height (drop index (entries_at store.now.nodes slot))) result }
{
    let entries = store.nodes.header_ref(slot).entries();
    if height == 0 {
        return count_entries(&entries[index..], edge, before);
    }
    if index == entries.len() {
        return before;
    }
    let child = entries[index].child;
    let counted = count_in(store, child, height - 1, 0, edge, before);
    count_in(store, slot, height, index + 1, edge, counted)
}

// Counts the boundaries of a leaf, too.
fn count_entries(entries: &[NodeEntry], edge: i64, before: Unexpired) -> Unexpired
    requires few { before.count + length entries.now < 2 ^ 64 }
    ensures counted { IsCounted edge before (map item_of entries.now) result }
{
    let mut counted = before;
    for entry in entries {
        counted = counted.after(edge, entry.version);
    }
    counted
}

// Returns whether a sweep removes a boundary of this version, which comes after one of the version
// before.
fn is_expired(edge: i64, before: i64, version: i64) -> bool
    ensures expired { result ≡ (int_lt before edge && int_lt version edge) }
{
    before < edge && version < edge
}
