//! A node: a short list of entries, in place.

ghost use Rattle.std.specs.Prelude.{◌≤◌, ◌≡◌, ◌+◌, ◌-◌, ℕ, get_or, length};
ghost use Rattle.std.specs.List.{copy_within};
ghost use Rattle.boundaries.specs.declared.node.TheConstants.{FAN_OUT, PADDING};

use crate::entry::NodeEntry;

mod heads;
mod lower_bound;
mod splice;
mod step;

pub use splice::Splice;
pub use step::Step;

/// How many entries a node has at most.
pub const FAN_OUT: usize = 128;

const _: () = prove!(FAN_OUT == 128);

/// The least number of entries of a node that isn't the root.
pub const HALF_FULL: usize = 64;

const _: () = prove!(HALF_FULL == 64);

// Fills the places without a head: no head is above it.
const PADDING: u32 = u32::MAX;

/// Up to [`FAN_OUT`] entries. Contracts see them as the list `entries_of`.
#[derive(Clone, Copy, Debug)]
pub struct Node {
    len: usize,
    // How many bytes all keys but an empty one begin with in common, or fewer.
    prefix_len: u16,
    // The head of each key, after these bytes. The greatest number follows the heads of the keys,
    // so that a search need not look at the length.
    heads: [u32; FAN_OUT],
    entries: [NodeEntry; FAN_OUT],
    ghost within: { len ≤ FAN_OUT },
    ghost padded: { (index : ℕ) → len ≤ index → get_or heads index PADDING ≡ PADDING },
}

impl Node {
    ghost use Rattle.std.specs.Prelude.{◌≡◌, ◌<◌, ◌+◌, ◌-◌, ◌∷◌, ◌++◌, [], length, take, drop};
    ghost use Rattle.std.specs.Prelude.{slice_get, slice_set, IfSome, Some};
    ghost use Rattle.boundaries.specs.Item.{IsGreatest, version_of};
    ghost use Rattle.boundaries.specs.Heads.{AreHeads, KeyBytes};
    ghost use Rattle.boundaries.specs.Node.{HasHeads, entries_of, key_heads_of, keys_of};

    /// Returns a node of one entry. What it knows is right if the key is empty.
    pub fn of(entry: NodeEntry) -> Self
        ensures entries { entries_of result ≡ entry ∷ [] }
        ensures key_heads { key_heads_of result
            ≡ record { keys = entry.key ∷ []; prefix_len = 0; heads = 0 ∷ [] } }
    {
        let mut heads = [PADDING; FAN_OUT];
        heads[0] = 0;
        Node {
            len: 1,
            entries: [entry; FAN_OUT],
            prefix_len: 0,
            heads,
        }
    }

    /// Returns the entries.
    pub fn entries(&self) -> &[NodeEntry]
        ensures entries { result.now ≡ entries_of self.now }
        ensures most { length (entries_of self.now) ≤ FAN_OUT }
    {
        &self.entries[..self.len]
    }

    // Returns the head of each key, after the common prefix of all.
    fn heads(&self) -> &[u32]
        ensures heads { result.now ≡ (key_heads_of self.now).heads }
    {
        &self.heads[..self.len]
    }

    /// Returns the number of entries.
    pub fn len(&self) -> usize
        ensures len { result ≡ length (entries_of self.now) }
        ensures most { length (entries_of self.now) ≤ FAN_OUT }
    {
        self.entries().len()
    }

    /// Replaces the entry at an index.
    pub fn set(&mut self, index: usize, entry: NodeEntry)
        requires within { index < length (entries_of self.old) }
        ensures entries { entries_of self.new ≡ slice_set (entries_of self.old) index entry }
        ensures key_heads { key_heads_of self.new
            ≡ record (key_heads_of self.old) { keys = keys_of (entries_of self.new) } }
    {
        self.entries[index] = entry;
    }

    /// Copies an entry, with what is known of its key, from one index to another.
    pub fn copy(&mut self, from: usize, to: usize)
        requires from { from < length (entries_of self.old) }
        requires to { to < length (entries_of self.old) }
        ensures entries { (e : NodeEntry) → slice_get (entries_of self.old) from ≡ Some e
            → entries_of self.new ≡ slice_set (entries_of self.old) to e }
        ensures headed { (bytes : KeyBytes) → AreHeads bytes (key_heads_of self.old)
            → AreHeads bytes (key_heads_of self.new) }
    {
        self.entries[to] = self.entries[from];
        self.heads[to] = self.heads[from];
    }

    /// Removes the entries from one index up to another.
    pub fn remove(&mut self, from: usize, to: usize)
        requires ordered { from ≤ to }
        requires within { to ≤ length (entries_of self.old) }
        ensures entries { entries_of self.new
            ≡ take from (entries_of self.old) ++ drop to (entries_of self.old) }
        ensures headed { (bytes : KeyBytes) → AreHeads bytes (key_heads_of self.old)
            → AreHeads bytes (key_heads_of self.new) }
    {
        self.move_tail(to, from);
    }

    // Moves the entries from an index on, with their heads, so that the first of them is at another
    // index. The node ends after the last one.
    fn move_tail(&mut self, from: usize, to: usize)
        requires within { from ≤ length (entries_of self.old) }
        requires room { to + (length (entries_of self.old) - from) ≤ FAN_OUT }
        ensures len { self.new.len ≡ to + (self.old.len - from) }
        ensures prefix_len { self.new.prefix_len ≡ self.old.prefix_len }
        ensures size { length self.new.heads ≡ FAN_OUT }
        ensures entries { take self.new.len self.new.entries
            ≡ take self.new.len (copy_within self.old.entries from self.old.len to) }
        ensures heads { take self.new.len self.new.heads
            ≡ take self.new.len (copy_within self.old.heads from self.old.len to) }
    {
        let end = self.len;
        // The slots after the last entry are moved too, so that the loops have full turns.
        let moved = multiple_of_four(end - from, FAN_OUT - from.max(to));
        move_within(&mut self.entries, from, from + moved, to);
        move_within(&mut self.heads, from, from + moved, to);
        self.len = to + (end - from);
        if self.len < end {
            let heads = &mut self.heads[..];
            heads[self.len..end].fill(PADDING);
        }
    }

    // Replaces the entries from one index up to another by these, and their heads if these are
    // given. Else the new entries have any heads.
    fn replace(&mut self, from: usize, to: usize, new: &[NodeEntry], heads: Option<&[u32]>)
        requires ordered { from ≤ to }
        requires within { to ≤ length (entries_of self.old) }
        requires same_len { IfSome heads (λ heads. length heads.now ≡ length new.now) }
        requires room { from + length new.now + (length (entries_of self.old) - to) ≤ FAN_OUT }
        ensures entries { entries_of self.new
            ≡ take from (entries_of self.old) ++ (new.now ++ drop to (entries_of self.old)) }
        ensures heads { IfSome heads.entry (λ heads. HasHeads self.old self.new
            (take from (key_heads_of self.old).heads
            ++ (heads.now ++ drop to (key_heads_of self.old).heads))) }
    {
        let end = from + new.len();
        self.move_tail(to, end);
        let entries = &mut self.entries[..];
        copy_few(new, &mut entries[from..end]);
        if let Some(heads) = heads {
            let own = &mut self.heads[..];
            copy_few(heads, &mut own[from..end]);
        }
    }

    // Takes the entries from an index on out, and returns them, with their heads.
    fn split_off(&mut self, at: usize) -> Node
        requires within { at ≤ length (entries_of self.old) }
        ensures left { entries_of self.new ≡ take at (entries_of self.old) }
        ensures right { entries_of result ≡ drop at (entries_of self.old) }
        ensures left_heads { HasHeads self.old self.new (take at (key_heads_of self.old).heads) }
        ensures right_heads { HasHeads self.old result (drop at (key_heads_of self.old).heads) }
    {
        let mut right = *self;
        right.move_tail(at, 0);
        self.move_tail(self.len, at);
        right
    }

    /// Returns the greatest version of the entries.
    pub fn greatest(&self) -> i64
        requires some { 0 < length (entries_of self.now) }
        ensures greatest { IsGreatest version_of result (entries_of self.now) }
    {
        let mut greatest = self.entries[0].version;
        for entry in &self.entries()[1..] {
            greatest = greatest.max(entry.version);
        }
        greatest
    }
}

// Returns the least multiple of four that isn't below the count, but no more than `most`.
fn multiple_of_four(count: usize, most: usize) -> usize
    requires within { count ≤ most }
    ensures least { count ≤ result }
    ensures most { result ≤ most }
{
    (count.saturating_add(3) / 4 * 4).min(most).max(count)
}

// Moves the elements from one index up to another, unless they stay.
fn move_within<T: Copy>(elements: &mut [T], from: usize, end: usize, to: usize)
    requires ordered { from ≤ end }
    requires within { end ≤ length elements.old }
    requires room { to + (end - from) ≤ length elements.old }
    ensures moved { elements.new ≡ copy_within elements.old from end to }
{
    if from != to {
        elements.copy_within(from..end, to);
    }
}

// Copies elements, of which there are mostly one or two.
fn copy_few<T: Copy>(from: &[T], to: &mut [T])
    requires same_len { length to.old ≡ length from.now }
    ensures copied { to.new ≡ from.now }
{
    match from.len() {
        1 => to[0] = from[0],
        2 => {
            to[0] = from[0];
            to[1] = from[1];
        }
        _ => to.copy_from_slice(from),
    }
}
