//! Bounds in the order of keys, by which boundaries are searched.

ghost use Rattle.std.specs.Prelude.{◌≡◌, ◌/◌, ◌↔◌, true, false, take, IsTrue};
ghost use Rattle.keys.specs.Key.{IsBytes};
ghost use Rattle.boundaries.specs.Bound.{bytes_at, is_below};
ghost use Rattle.boundaries.specs.Heads.{IsCommonPrefixLen, head_after};

use arena::{Arena, Slot};
use keys::{common_prefix_len, head_after};
use std::cmp::Ordering;

/// The keys of boundaries, each a record of an arena.
pub type Keys = Arena<()>;

/// A position in the order of keys: right after a key, or right before it. The boundaries below it
/// come first, and then the others.
#[derive(Clone, Copy, Debug)]
pub struct KeyBound<'a> {
    pub key: &'a [u8],
    /// Whether a boundary at the key itself is below the bound.
    pub up_to: bool,
}

impl<'a> KeyBound<'a> {
    /// Returns the bound right after a key.
    pub fn after(key: &'a [u8]) -> Self
        ensures bound { result ≡ record { key = key.entry; up_to = true } }
    {
        KeyBound { key, up_to: true }
    }

    /// Returns the bound right before a key.
    pub fn before(key: &'a [u8]) -> Self
        ensures bound { result ≡ record { key = key.entry; up_to = false } }
    {
        KeyBound { key, up_to: false }
    }

    /// Returns whether the key of a slot is below the bound. That of a slot without a record isn't.
    pub fn is_below(self, keys: &Keys, slot: Slot) -> bool
        ensures is_below { result ≡ is_below keys.now self.entry slot }
    {
        if !keys.is_live(slot) {
            return false;
        }
        match keys.key(slot).cmp(self.key) {
            Ordering::Less => true,
            Ordering::Equal => self.up_to,
            Ordering::Greater => false,
        }
    }

    /// Returns the head of the bound's key, after its first n bytes.
    pub fn head(self, prefix_len: usize) -> u32
        ensures head { result ≡ head_after prefix_len self.entry.key.now }
        ensures are_bytes { IsBytes self.entry.key.now }
    {
        short_head(self.key, prefix_len)
    }

    /// Returns the length of the common prefix of the bound's key and that of a slot.
    #[inline(always)]
    pub fn common_prefix_len(self, keys: &Keys, slot: Slot) -> usize
        ensures common { IsCommonPrefixLen result (bytes_at keys.now slot) self.entry.key.now }
    {
        common_prefix_len(bytes_of(keys, slot), self.key)
    }

    /// Returns whether the bound's key and that of a slot agree on the first n bytes.
    #[inline(always)]
    pub fn begins_as(self, keys: &Keys, slot: Slot, count: usize) -> bool
        ensures same { IsTrue result
            ↔ (take count (bytes_at keys.now slot) ≡ take count self.entry.key.now) }
    {
        first(bytes_of(keys, slot), count) == first(self.key, count)
    }
}

/// Returns the bytes of a key, or no bytes if the slot has no record.
pub fn bytes_of(keys: &Keys, slot: Slot) -> &[u8]
    ensures bytes { result.now ≡ bytes_at keys.now slot }
{
    if !keys.is_live(slot) {
        return &[];
    }
    keys.key(slot)
}

/// Returns the head of a key after its first n bytes: the next four, as one number.
pub fn short_head(key: &[u8], prefix_len: usize) -> u32
    ensures head { result ≡ head_after prefix_len key.now }
    ensures are_bytes { IsBytes key.now }
{
    first_four(head_after(key, prefix_len))
}

// Returns the first four of the eight bytes of a head as one number.
fn first_four(head: u64) -> u32
    ensures upper_half { result ≡ head / 4294967296 }
{
    (head >> 32) as u32
}

// Returns the first n bytes, or all.
fn first(bytes: &[u8], count: usize) -> &[u8]
    ensures first { result.now ≡ take count bytes.now }
{
    &bytes[..count.min(bytes.len())]
}
