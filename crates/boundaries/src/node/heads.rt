//! The heads of a node's keys, after the prefix that all of them have in common: how they are
//! computed and kept.

ghost use Rattle.std.specs.Prelude.{◌≡◌, ◌≢◌, ◌<◌, ◌≤◌, ◌+◌, ◌++◌, List, [], length, ℕ, take, drop};
ghost use Rattle.std.specs.Prelude.{slice_index, slice_set, Some, IfSome, IsTrue};
ghost use Rattle.std.specs.Int.{w32, to_be_bytes};
ghost use Rattle.std.specs.List.{All, Contains};
ghost use Rattle.arena.specs.Arena.{key_at};
ghost use Rattle.boundaries.specs.Heads.{HasPrefix, IsHeadBeside, IsKnown, Begins, head_at};
ghost use Rattle.boundaries.specs.Node.{IsHeaded, entries_of, key_heads_of, keys_of};
ghost use Rattle.boundaries.specs.declared.node.TheConstants.{FAN_OUT};

use super::Node;
use crate::entry::NodeEntry;
use crate::key_bound::{Keys, bytes_of, short_head};
use arena::Slot;
use keys::{common_prefix_len, same_bytes};

// If the first and the last head have this many bytes in common, heads after a longer prefix say
// more.
const NARROW: usize = 2;

// If one key is empty, a common prefix of the others shorter than this doesn't count.
const FEW: u16 = 2;

// Of a longer one, this many bytes don't count then: a bound's key may differ from the other keys
// there.
const UNSURE: u16 = 1;

impl Node {
    /// Returns how many bytes all keys but an empty one begin with in common, or fewer.
    pub fn prefix_len(&self) -> usize
        ensures prefix_len { result ≡ (key_heads_of self.now).prefix_len }
        ensures short { result ≤ 65535 }
    {
        usize::from(self.prefix_len)
    }

    /// Computes the prefix and the heads.
    pub fn compute_heads(&mut self, keys: &Keys)
        requires known { All (IsKnown (key_at keys.now)) (keys_of (entries_of self.old)) }
        ensures entries { entries_of self.new ≡ entries_of self.old }
        ensures headed { IsHeaded keys.now self.new }
    {
        self.prefix_len = self.prefix(keys);
        for index in 0..self.len {
            let key = self.entries[index].key;
            self.heads[index] = self.head_in(keys, key);
        }
    }

    // Returns the length of the common prefix of all keys except an empty one, but no more than
    // fits. If the first key is empty it is one byte less, or 0.
    fn prefix(&self, keys: &Keys) -> u16
        requires known { All (IsKnown (key_at keys.now)) (keys_of (entries_of self.now)) }
        ensures begin { (prefix : List ℕ) × (length prefix ≡ result)
            × All (Begins (key_at keys.now) prefix) (keys_of (entries_of self.now)) }
    {
        let entries = self.entries();
        let (Some(first), Some(last)) = (entries.first(), entries.last()) else {
            return 0;
        };
        if bytes_of(keys, last.key).is_empty() {
            return 0;
        }
        let count = keys_prefix_len(keys, entries, last.key);
        if bytes_of(keys, first.key).is_empty() {
            return without_some(count);
        }
        count
    }

    /// Sets the entry at an index, and its head unless its key stays.
    pub fn set_with_head(&mut self, keys: &Keys, index: usize, entry: NodeEntry)
        requires within { index < length (entries_of self.old) }
        requires headed { IsHeaded keys.now self.old }
        requires known { IsKnown (key_at keys.now) entry.key }
        ensures entries { entries_of self.new ≡ slice_set (entries_of self.old) index entry }
        ensures headed { IsHeaded keys.now self.new }
    {
        let Some(head) = self.head_of(keys, entry.key, index) else {
            self.set(index, entry);
            return self.compute_heads(keys);
        };
        self.set(index, entry);
        self.heads[index] = head;
    }

    /// Puts the entries of another node before the one at an index.
    pub fn insert(&mut self, keys: &Keys, index: usize, other: &Node)
        requires within { index ≤ length (entries_of self.old) }
        requires room { length (entries_of self.old) + length (entries_of other.now) ≤ FAN_OUT }
        requires headed { IsHeaded keys.now self.old × IsHeaded keys.now other.now }
        ensures entries { entries_of self.new
            ≡ take index (entries_of self.old)
            ++ (entries_of other.now ++ drop index (entries_of self.old)) }
        ensures headed { IsHeaded keys.now self.new }
    {
        let Some(first) = other.entries().first() else {
            return;
        };
        if self.prefix_len == other.prefix_len && self.begins(keys, first.key) {
            self.replace(index, index, other.entries(), Some(other.heads()));
            return self.lengthen_prefix(keys);
        }
        self.replace(index, index, other.entries(), None);
        self.compute_heads(keys);
    }

    /// Takes the entries from one index up to another out, and returns them, with their heads.
    pub fn take_out(&mut self, keys: &Keys, from: usize, to: usize) -> Node
        requires ordered { from ≤ to }
        requires within { to ≤ length (entries_of self.old) }
        requires headed { IsHeaded keys.now self.old }
        ensures entries { entries_of self.new
            ≡ take from (entries_of self.old) ++ drop to (entries_of self.old) }
        ensures taken { entries_of result ≡ drop from (take to (entries_of self.old)) }
        ensures headed { IsHeaded keys.now self.new × IsHeaded keys.now result }
    {
        let mut taken = *self;
        taken.remove(to, taken.len());
        taken.remove(0, from);
        self.remove(from, to);
        self.lengthen_prefix(keys);
        taken
    }

    /// Computes the heads anew if heads after a longer prefix say more.
    pub fn lengthen_prefix(&mut self, keys: &Keys)
        requires headed { IsHeaded keys.now self.old }
        ensures entries { entries_of self.new ≡ entries_of self.old }
        ensures headed { IsHeaded keys.now self.new }
    {
        if self.is_narrow() {
            self.compute_heads(keys);
        }
    }

    /// Returns the head of a key that is the one at an index, or begins as all keys do.
    pub fn head_of(&self, keys: &Keys, key: Slot, index: usize) -> Option<u32>
        requires headed { IsHeaded keys.now self.now }
        requires within { index < length (entries_of self.now) }
        requires known { IsKnown (key_at keys.now) key }
        ensures head { IfSome result
            (IsHeadBeside (key_at keys.now) (key_heads_of self.now) key) }
    {
        if self.entries[index].key == key {
            return Some(self.heads[index]);
        }
        if self.begins(keys, key) {
            return Some(self.head_in(keys, key));
        }
        None
    }

    // Returns the head of a key after the common prefix.
    fn head_in(&self, keys: &Keys, key: Slot) -> u32
        ensures head { result
            ≡ head_at (key_at keys.now) (key_heads_of self.now).prefix_len key }
    {
        short_head(bytes_of(keys, key), self.prefix_len())
    }

    // Returns whether a key begins as all keys do; false if there is no key.
    fn begins(&self, keys: &Keys, key: Slot) -> bool
        requires headed { IsHeaded keys.now self.now }
        ensures has_prefix { IsTrue result → (text : List ℕ) → key_at keys.now key ≡ Some text
            → HasPrefix (key_at keys.now) (key_heads_of self.now) text }
    {
        match self.entries().last() {
            Some(last) => {
                let own = bytes_of(keys, last.key);
                common_prefix_len(own, bytes_of(keys, key)) >= self.prefix_len()
            }
            None => false,
        }
    }

    // Returns whether the first and the last head have enough bytes in common that heads after a
    // longer prefix say more.
    fn is_narrow(&self) -> bool {
        match (self.heads.first(), self.heads[..self.len].last()) {
            (Some(first), Some(last)) => same_head_bytes(*first, *last) >= NARROW,
            _ => false,
        }
    }
}

/// Returns how many bytes two heads begin with in common.
pub fn same_head_bytes(a: u32, b: u32) -> usize
    ensures within { result ≤ 4 }
    ensures same { take result (to_be_bytes w32 a) ≡ take result (to_be_bytes w32 b) }
    ensures differ { result < 4 → slice_index (to_be_bytes w32 a) result
        ≢ slice_index (to_be_bytes w32 b) result }
{
    same_bytes(u64::from(a) << 32, u64::from(b) << 32).min(4)
}

// Returns how many of the bytes count with which all keys but an empty one begin in common.
fn without_some(count: u16) -> u16
    ensures fewer { result ≤ count }
{
    if count < FEW {
        return 0;
    }
    count - UNSURE
}

// Returns how many bytes the keys but empty ones begin with in common with one that isn't empty,
// but no more than fit.
fn keys_prefix_len(keys: &Keys, entries: &[NodeEntry], key: Slot) -> u16
    requires known { All (IsKnown (key_at keys.now)) (keys_of entries.now) }
    requires there { Contains (keys_of entries.now) key }
    requires filled { (text : List ℕ) → key_at keys.now key ≡ Some text → text ≢ [] }
    ensures begin { (text : List ℕ) → key_at keys.now key ≡ Some text → (result ≤ length text)
        × All (Begins (key_at keys.now) (take result text)) (keys_of entries.now) }
{
    let last = bytes_of(keys, key);
    let mut count = usize::from(u16::MAX);
    for entry in entries {
        let own = bytes_of(keys, entry.key);
        if !own.is_empty() {
            count = count.min(common_prefix_len(last, own));
        }
    }
    count as u16
}
