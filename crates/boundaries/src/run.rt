//! The run of a leaf's entries that is written over, and its replacement.

ghost use Rattle.std.specs.Prelude.{◌≡◌, ◌≤◌, ◌+◌, ◌-◌, ◌<◌, ◌↔◌, [], length, None, Some, IsTrue};
ghost use Rattle.std.specs.Prelude.{slice_get};
ghost use Rattle.arena.specs.Arena.{IsLive};
ghost use Rattle.boundaries.specs.Bound.{bytes_at};
ghost use Rattle.boundaries.specs.EntryRun.{CanClearRun, CanFindRun, CanWriteRun, IsRunBefore};
ghost use Rattle.boundaries.specs.EntryRun.{IsRunCleared, IsRunWritten};
ghost use Rattle.boundaries.specs.Overwrite.{CanBeWritten, GivesWritten, part_of_part};
ghost use Rattle.boundaries.specs.Overwrite.{written_kept};
ghost use Rattle.boundaries.specs.Overwrite.{before_start, bound_to};
ghost use Rattle.boundaries.specs.Rebalancing.{IsStored};
ghost use Rattle.boundaries.specs.Store.{KeysStay};
ghost use Rattle.boundaries.specs.Subtree.{entries_at};
ghost use Rattle.boundaries.specs.declared.node.TheConstants.{FAN_OUT};

use crate::descent::Position;
use crate::entry::NodeEntry;
use crate::key_bound::{KeyBound, bytes_of};
use crate::node::{HALF_FULL, Splice};
use crate::overwrite::Overwrite;
use crate::store::{Store, put_removed};
use crate::walk::{LeafChange, LeafOutcome, RaisedLeaf};
use arena::Slot;

/// The position of a run among the entries of a leaf.
#[derive(Clone, Copy, Debug)]
pub struct EntryRun {
    /// How many entries are before the start.
    pub begin: usize,
    /// How many are before the end: at least one.
    pub end: usize,
    /// The head of the start, if that begins as all keys do.
    pub begin_head: Option<u32>,
    /// The head of the end.
    pub end_head: Option<u32>,
    /// Whether there is a boundary at the end, so that none is put in there.
    pub ended: bool,
}

/// Finds the run in the leaf that has the last boundary before the end.
pub fn find_run(store: &Store, position: Position, new: &Overwrite<'_>) -> EntryRun
    requires can_find { CanFindRun store.now position new.now }
    ensures run { IsRunBefore store.now position.slot position.following new.now result }
{
    let keys = &store.keys;
    let leaf = store.nodes.header_ref(position.slot);
    let known = position.common_prefix_len;
    let end_head = leaf.head_for(keys, new.to(), known);
    let end = leaf.lower_bound_by_head(keys, new.to(), end_head);
    let common = new.common_prefix_len;
    let begin_head = leaf.head_beside(keys, new.from(), known, common, end_head);
    let begin = leaf.lower_bound_back(keys, end, new.from(), begin_head);
    let ended = if end < leaf.len() {
        leaf.is_below_at(keys, end, new.past(), end_head)
    } else {
        match position.following {
            Some(key) => new.past().is_below(keys, key),
            None => false,
        }
    };
    EntryRun {
        begin,
        end,
        begin_head,
        end_head,
        ended,
    }
}

/// Replaces the run by the new boundaries. Returns the slot of the leaf's right neighbour if there
/// is no room for all, so that it is split. It takes no memory.
#[inline(always)]
pub fn write_run(store: &mut Store, slot: Slot, new: &Overwrite<'_>, run: EntryRun) -> Option<Slot>
    requires can_write { CanWriteRun store.old slot new.now run }
    ensures written { IsRunWritten store.old store.new slot new.now run result }
    ensures stored { IsStored store.old store.new slot result }
    ensures keys { KeysStay store.old.keys store.new.keys }
    ensures fits { run.begin + 2 + (length (entries_at store.old.nodes slot) - run.end) ≤ FAN_OUT
        → result ≡ None }
{
    let EntryRun { begin, end, .. } = run;
    let entries = store.nodes.header_ref(slot).entries();
    let last = entries[end - 1].version;
    put_removed(&mut store.removed, &entries[begin..end]);
    let start = store.keys.place((), new.start).unwrap();
    let first = NodeEntry::of(start, new.version);
    // The keys of both entries have the bytes of the start and the end, and so their heads.
    let heads = match (run.begin_head, run.end_head) {
        (Some(begin), Some(end)) => Some([begin, end]),
        _ => None,
    };
    if run.ended {
        return store.splice(slot, Splice::new(begin, end, &[first], heads));
    }
    let key = store.keys.place((), new.end).unwrap();
    let second = NodeEntry::of(key, new.at_end.unwrap_or(last));
    store.splice(slot, Splice::new(begin, end, &[first, second], heads))
}

/// The writing in the leaf that has the last boundary before the end.
#[derive(Debug, Drop)]
pub struct Overwriting<'a, 'b> {
    pub new: &'b Overwrite<'a>,
    /// The version at the end, if some boundaries of the range are in earlier leaves. Then those of
    /// this leaf are removed, and nothing is put in.
    pub at_end: Option<i64>,
}

impl<'a, 'b> LeafChange for Overwriting<'a, 'b> {
    ghost bound_of = { λ o. bound_to o.new.now };

    ghost wants = { λ o keys items. (o.at_end ≡ None) × CanBeWritten o.new.now keys items };

    ghost gives = { λ o done. GivesWritten o.new.now done.at_end };

    fn bound(&self) -> KeyBound<'_> {
        self.new.to()
    }

    // The next write may come to any later leaf.
    fn goes_along(&self) -> bool {
        false
    }

    fn change(&mut self, store: &mut Store, position: Position) -> LeafOutcome {
        let slot = position.slot;
        let run = find_run(store, position, self.new);
        if run.begin == 0 && !has_first(store, slot) {
            let last = clear_run(store, slot, run.end);
            self.at_end = Some(self.new.at_end.unwrap_or(last));
            return LeafOutcome::Changed;
        }
        if let Some(added) = write_run(store, slot, self.new, run) {
            return LeafOutcome::Split(added);
        }
        let is_short = store.nodes.header_ref(slot).len() < HALF_FULL;
        if run.begin == 0 || self.new.at_end.is_some() || is_short {
            return LeafOutcome::Changed;
        }
        LeafOutcome::Raised(RaisedLeaf {
            slot,
            version: self.new.version,
            index: run.begin,
        })
    }

    ghost part = { λ o keys before items following wanted. (
      wanted.0,
      record {
        part = part_of_part (before_start keys o.new.now) before items following wanted.1.part;
        room = wanted.1.room;
      },
    ) };

    ghost kept = { λ o done. written_kept o.new.now done.at_end };
}

// Returns whether a leaf has the first boundary of all: that at the empty key.
fn has_first(store: &Store, slot: Slot) -> bool
    requires live { IsLive store.now.nodes slot }
    requires some { 0 < length (entries_at store.now.nodes slot) }
    ensures first { (e : NodeEntry) → slice_get (entries_at store.now.nodes slot) 0 ≡ Some e
        → IsTrue result ↔ (bytes_at store.now.keys e.key ≡ []) }
{
    let entries = store.nodes.header_ref(slot).entries();
    bytes_of(&store.keys, entries[0].key).is_empty()
}

// Removes the first entries of a leaf. Returns the version of the last of them.
fn clear_run(store: &mut Store, slot: Slot, end: usize) -> i64
    requires can_clear { CanClearRun store.old slot end }
    ensures cleared { IsRunCleared store.old store.new slot end result }
{
    let entries = store.nodes.header_ref(slot).entries();
    let last = entries[end - 1].version;
    put_removed(&mut store.removed, &entries[..end]);
    store.nodes.header_mut(slot).remove(0, end);
    last
}
