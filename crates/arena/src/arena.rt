//! The arena.

ghost use Rattle.std.specs.Prelude.{◌≡◌, ◌≢◌, ℕ, ◌+◌, ◌<◌, ◌≤◌, ◌==◌, ◌↔◌, length, Some, None};
ghost use Rattle.std.specs.Prelude.{IsOk, IfOk, IfSome, OnOk, OnErr, IsOkUnless, Any, All};
ghost use Rattle.std.specs.Prelude.{if◌then◌else◌};
ghost use Rattle.std.specs.Option.{is_some};
ghost use Rattle.std.specs.Borrow.{sem};
ghost use Rattle.std.specs.FinMap as map;
ghost use Rattle.arena.specs.Arena.{size_of, slots_of, wanted_of, record_at, header_at, key_at};
ghost use Rattle.arena.specs.Arena.{spare_of, with_header, IsLive, HasRoomFor};
ghost use Rattle.arena.specs.declared.size.TheConstants.{MAX_LENGTH, SIZES};

mod growth;

use crate::ahead::read_ahead;
use crate::chunk::Chunk;
use crate::error::ArenaError;
use crate::size::{MAX_LENGTH, SIZES, count_sizes, size_of};
use crate::slot::Slot;
use crate::spares::Spares;
use std::alloc::{Allocator, Global};
use std::fmt;
use std::marker::Model;

/// Records of a header and key bytes, each in a slot of one of ten sizes. A released slot is given
/// again.
///
/// The key of a slot may have as many bytes as its size tells: 32, 64, 128, and so on to 16,384. A
/// record takes a slot of the least size that its key fits. Memory is taken in chunks of 16,384 key
/// bytes, each cut into slots of one size, and is kept until the arena is dropped. Contracts see
/// the records as a finite map from slots, and for each size the number of slots that are spare.
#[derive(Drop)]
pub struct Arena<H: Copy, A: Allocator + Copy = Global> {
    alloc: A,
    chunks: Vec<Chunk<H, A>, A>,
    spares: Spares<A>,
    live: usize,
    // What was read ahead of spare slots. It says nothing, and is kept so that the compiler doesn't
    // omit the read.
    read: u16,
}

impl<H: Copy, A: Allocator + Copy> Model for Arena<H, A> {
    ghost use Rattle.arena.specs.Arena.{Arena as Slots, arena_code};
    ghost use Rattle.arena.specs.Kept.{records_of, IsKept};
    ghost use Rattle.arena.specs.Spares.{counts_of};

    ghost Value = { Slots H };

    ghost coded = { arena_code H.code };

    ghost view = { λ a. record {
      records = records_of a.chunks.items;
      spare = counts_of a.spares;
    } };

    ghost invariant = { λ a. IsKept a.chunks.items a.spares a.live };
}

impl<H: Copy, A: Allocator + Copy> Arena<H, A> {
    ghost use Rattle.arena.specs.Lends.{lends_header};

    /// Returns an arena without records. It takes no memory.
    pub fn new(alloc: A) -> Self
        ensures empty { result.records ≡ map.empty }
        ensures spare { (size : ℕ) → spare_of result size ≡ 0 }
    {
        Arena {
            alloc,
            chunks: Vec::new(alloc),
            spares: Spares::new(alloc),
            live: 0,
            read: 0,
        }
    }

    /// Takes the memory that records with keys of these lengths need, and none for a size of which
    /// enough slots are spare. No chunk is taken beyond the one that makes the slots of a size
    /// enough.
    pub fn reserve(&mut self, lengths: &[usize]) -> Result<(), ArenaError>
        ensures room { OnOk result (HasRoomFor (spare_of self.new) lengths.now) }
        ensures records { self.new.records ≡ self.old.records }
        ensures spare_stays { (size : ℕ) → spare_of self.old size ≤ spare_of self.new size }
        ensures no_more { (size : ℕ) → wanted_of lengths.now size ≤ spare_of self.old size
            → spare_of self.new size ≡ spare_of self.old size }
        ensures most { (size : ℕ) → size < SIZES
            → spare_of self.old size < wanted_of lengths.now size
            → spare_of self.new size < wanted_of lengths.now size + slots_of size }

        // It is refused `TooLong` before any memory is taken, and `Memory` only if some is wanted.
        ensures too_long { (result ≡ Err ArenaError.TooLong)
            ↔ Any (λ n. MAX_LENGTH < n) lengths.now }
        ensures unchanged { result ≡ Err ArenaError.TooLong → self.new ≡ self.old }
        ensures enough { All (λ n. n ≤ MAX_LENGTH) lengths.now
            → HasRoomFor (spare_of self.old) lengths.now → IsOk result }
    {
        let wanted = count_sizes(lengths)?;
        for size in 0..SIZES {
            self.fill_up(size, wanted[size])?;
        }
        Ok(())
    }

    /// Takes the memory that `count` records with keys of this length need, and none if enough
    /// slots are spare. No chunk is taken beyond the one that makes them enough.
    pub fn reserve_slots(&mut self, length: usize, count: usize) -> Result<(), ArenaError>
        requires fits { length ≤ MAX_LENGTH }
        ensures room { OnOk result (count ≤ spare_of self.new (size_of length)) }
        ensures records { self.new.records ≡ self.old.records }
        ensures spare_stays { spare_of self.old (size_of length)
            ≤ spare_of self.new (size_of length) }
        ensures other_sizes { (size : ℕ) → size ≢ size_of length
            → spare_of self.new size ≡ spare_of self.old size }
        ensures no_more { count ≤ spare_of self.old (size_of length)
            → spare_of self.new (size_of length) ≡ spare_of self.old (size_of length) }
        ensures most { spare_of self.old (size_of length) < count
            → spare_of self.new (size_of length) < count + slots_of (size_of length) }

        // It is refused `Memory` alone, and only if some is wanted.
        ensures enough { count ≤ spare_of self.old (size_of length) → IsOk result }
        ensures memory { IsOkUnless result ArenaError.Memory }
    {
        self.fill_up(size_of(length), count)
    }

    /// Adds a record, in a slot that was not live. It takes no memory if a slot of the key's size
    /// is spare.
    pub fn place(&mut self, header: H, key: &[u8]) -> Result<Slot, ArenaError>
        ensures was_free { IfOk result (λ slot. record_at self.old slot ≡ None) }
        ensures placed { IfOk result (λ slot. self.new.records
            ≡ map.insert self.old.records slot (record { header = header; key = key.now })) }
        ensures record { IfOk result (λ slot. record_at self.new slot
            ≡ Some (record { header = header; key = key.now })) }
        ensures others { IfOk result (λ slot. (other : ℕ) → other ≢ slot
            → record_at self.new other ≡ record_at self.old other) }

        // It uses one spare slot, of a new chunk if none was spare.
        ensures spare { OnOk result (let size = size_of (length key.now) in spare_of self.new size
            + 1
            ≡ (if spare_of self.old size == 0 then slots_of size else spare_of self.old size)) }
        ensures other_sizes { OnOk result ((size : ℕ) → size ≢ size_of (length key.now)
            → spare_of self.new size ≡ spare_of self.old size) }

        // It is refused `TooLong` for a longer key alone, and `Memory` only if no slot of the size
        // is spare.
        ensures enough { length key.now ≤ MAX_LENGTH
            → 0 < spare_of self.old (size_of (length key.now))
            → IsOk result }
        ensures too_long { (result ≡ Err ArenaError.TooLong) ↔ (MAX_LENGTH < length key.now) }
        ensures unchanged { OnErr result (self.new ≡ self.old) }
    {
        if key.len() > MAX_LENGTH {
            return Err(ArenaError::TooLong);
        }
        let size = size_of(key.len());
        self.spare_one(size)?;
        Ok(self.give(size, header, key))
    }

    /// Returns the header of a record.
    pub fn header(&self, slot: Slot) -> H
        requires live { IsLive self.now slot }
        ensures header { header_at self.now slot ≡ Some result }
    {
        *self.header_ref(slot)
    }

    /// Returns the header of a record where it lies.
    pub fn header_ref(&self, slot: Slot) -> &H
        requires live { IsLive self.now slot }
        ensures header { header_at self.now slot ≡ Some result.now }
    {
        let chunk = &self.chunks[slot.chunk()];
        chunk.header(slot.index())
    }

    /// Lends the header of a record for writing. The key and all other records stay as they are.
    pub fn header_mut(&mut self, slot: Slot) -> &mut H
        requires live { IsLive self.old slot }
        ensures* lends { sem 𝓛 (lends_header H.row A.row A.Allocator self.entry slot result) }
        ensures header { header_at self.old slot ≡ Some result.now }
    {
        let chunk = &mut self.chunks[slot.chunk()];
        chunk.header_mut(slot.index())
    }

    /// Replaces the header of a record. The key and all other records stay as they are.
    pub fn set_header(&mut self, slot: Slot, header: H)
        requires live { IsLive self.old slot }
        ensures replaced { self.new ≡ with_header self.old slot header }
    {
        *self.header_mut(slot) = header;
    }

    /// Returns the key of a record where it lies.
    pub fn key(&self, slot: Slot) -> &[u8]
        requires live { IsLive self.now slot }
        ensures key { key_at self.now slot ≡ Some result.now }
    {
        let chunk = &self.chunks[slot.chunk()];
        chunk.key(slot.index())
    }

    /// Removes a record. Its slot is spare then.
    pub fn release(&mut self, slot: Slot)
        requires live { IsLive self.old slot }
        ensures released { self.new.records ≡ map.remove self.old.records slot }
        ensures others { (other : ℕ) → other ≢ slot
            → record_at self.new other ≡ record_at self.old other }
        ensures spare { IfSome (key_at self.old slot)
            (λ key. spare_of self.new (size_of (length key))
            ≡ spare_of self.old (size_of (length key)) + 1) }
        ensures other_sizes { IfSome (key_at self.old slot) (λ key. (size : ℕ)
            → size ≢ size_of (length key)
            → spare_of self.new size ≡ spare_of self.old size) }
    {
        let chunk = &mut self.chunks[slot.chunk()];
        let size = chunk.size();
        chunk.free(slot.index());
        self.spares.put(size, slot);
        self.live -= 1;
    }

    /// Returns how many records there are.
    pub fn live(&self) -> usize
        ensures count { result ≡ map.len self.now.records }
    {
        self.live
    }

    /// Returns `true` if the slot is live, which is to say that it has a record.
    pub fn is_live(&self, slot: Slot) -> bool
        ensures live { result ≡ is_some (record_at self.now slot) }
    {
        if slot.chunk() >= self.chunks.len() {
            return false;
        }
        let chunk = &self.chunks[slot.chunk()];
        chunk.is_live(slot.index())
    }

    /// Returns how many bytes of memory the records have used so far, of which a header has
    /// `header_bytes`. The memory of a record that was released still counts. What the allocator
    /// adds doesn't.
    pub fn bytes_held(&self, header_bytes: usize) -> usize {
        let mut bytes: usize = 0;
        for chunk in &self.chunks {
            bytes = bytes.saturating_add(chunk.bytes_held(header_bytes));
        }
        bytes
    }

    // Gives a spare slot of the size to a record.
    fn give(&mut self, size: usize, header: H, key: &[u8]) -> Slot
        requires size { size ≡ size_of (length key.now) }
        requires fits { length key.now ≤ MAX_LENGTH }
        requires spare { 0 < spare_of self.old size }
        ensures was_free { record_at self.old result ≡ None }
        ensures placed { self.new.records
            ≡ map.insert self.old.records result (record { header = header; key = key.now }) }
        ensures spare { spare_of self.new size + 1 ≡ spare_of self.old size }
        ensures other_sizes { (s : ℕ) → s ≢ size → spare_of self.new s ≡ spare_of self.old s }
    {
        self.read ^= read_ahead(&self.chunks, self.spares.slots(size));
        let slot = self.spares.take(size);
        let chunk = &mut self.chunks[slot.chunk()];
        chunk.fill(slot.index(), header, key);
        self.live += 1;
        slot
    }
}

impl<H: Copy, A: Allocator + Copy> fmt::Debug for Arena<H, A> {
    fn fmt<W: fmt::Write>(&self, f: &mut fmt::Formatter<W>) -> fmt::Result {
        f.debug_struct("Arena").field("live", &self.live).finish()
    }
}
