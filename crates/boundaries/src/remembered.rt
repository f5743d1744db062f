//! A write into the leaf of the previous write. The writes of a batch come in the order of their
//! keys, so those of one leaf are adjacent. One walk leads to the leaf, and the writes that
//! continue there need no other.

ghost use Rattle.std.specs.Prelude.{IfSome};
ghost use Rattle.boundaries.specs.EntryRun.{CanWriteInLeaf, IsFoundRun, WritesInLeaf};

use crate::node::{FAN_OUT, HALF_FULL};
use crate::overwrite::Overwrite;
use crate::run::{EntryRun, write_run};
use crate::store::Store;
use crate::walk::RaisedLeaf;

/// Writes over a run in the leaf of the write before, if that had the same version, so that no
/// entry above has to be changed. Returns false, and changes nothing, if the run isn't sure to be
/// there, or the leaf would get too many entries or too few.
pub fn write_in_leaf(store: &mut Store, leaf: RaisedLeaf, new: &Overwrite<'_>) -> bool
    requires can_write { CanWriteInLeaf store.old leaf.slot new.now }
    ensures written { WritesInLeaf store.old store.new leaf new.now result }
{
    if new.version != leaf.version || new.at_end.is_some() {
        return false;
    }
    let slot = leaf.slot;
    match find_inner_run(store, leaf, new) {
        Some(run) => {
            write_run(store, slot, new, run);
            true
        }
        None => false,
    }
}

// Finds the run among the entries of a leaf, if it is certainly between two of them. The leaf must
// keep enough entries and have room for two more. The key of the entry at the leaf's index, which
// may be any, shows whether the start and the end begin as all keys do.
fn find_inner_run(store: &Store, leaf: RaisedLeaf, new: &Overwrite<'_>) -> Option<EntryRun>
    requires can_find { CanWriteInLeaf store.now leaf.slot new.now }
    ensures run { IfSome result (IsFoundRun store.now leaf.slot new.now) }
{
    let keys = &store.keys;
    let node = store.nodes.header_ref(leaf.slot);
    let prefix_len = node.prefix_len();
    let end_head = new.to().head(prefix_len);
    let is_there = node.ends_above(end_head) && prefix_len <= new.common_prefix_len;
    if !is_there || !node.has_prefix_of(keys, leaf.index, new.to()) {
        return None;
    }
    let (begin_head, end_head) = (Some(new.from().head(prefix_len)), Some(end_head));
    let end = node.lower_bound_by_head(keys, new.to(), end_head);
    let begin = node.lower_bound_back(keys, end, new.from(), begin_head);
    let len = node.len();
    if begin == 0 || end == len || len + 2 > FAN_OUT || len < HALF_FULL + (end - begin) {
        return None;
    }
    let ended = node.is_below_at(keys, end, new.past(), end_head);
    Some(EntryRun {
        begin,
        end,
        begin_head,
        end_head,
        ended,
    })
}
