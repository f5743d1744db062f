//! A chunk: slots of one size, whose lengths and headers are filled in as the slots are used, and
//! whose key bytes are filled with zeros when the first key that isn't empty is written.

ghost use Rattle.std.specs.Prelude.{◌≡◌, ℕ, ◌+◌, ◌-◌, ◌*◌, ◌<◌, ◌≤◌, length, take, drop};
ghost use Rattle.std.specs.Prelude.{slice_index, slice_set, vec_capacity, Some, IsSome, IfOk};
ghost use Rattle.std.specs.Prelude.{option_map};
ghost use Rattle.std.specs.Option.{is_some};
ghost use Rattle.std.specs.Borrow.{sem};
ghost use Rattle.arena.specs.Arena.{sizes, slots_of};
ghost use Rattle.arena.specs.Chunk.{entries_of, with_free, with_key, made_bytes, bytes_after_key};
ghost use Rattle.arena.specs.declared.size.TheConstants.{CHUNK_BYTES, SIZES};

use crate::size::{CHUNK_BYTES, slots_of, width_of};
use std::alloc::{AllocError, Allocator};
use std::marker::Model;

// Marks a free slot instead of a length. No key is that long.
const FREE: u16 = u16::MAX;

const _: () = prove!(FREE == 65_535);

// What a slot takes besides its header and its key: its length, and its name in the list of those
// that are spare.
const SLOT_BYTES: usize = 6;

/// Slots of one size, their headers beside each other, and their key bytes beside each other.
#[derive(Drop)]
pub(crate) struct Chunk<H, A: Allocator> {
    // The length of each live slot's key, or `FREE`. There is room for one for each slot. The slots
    // after the last length are free, and their memory is not touched yet.
    lengths: Vec<u16, A>,
    // The header of each slot that has a length. That of a free slot says nothing.
    headers: Vec<H, A>,
    // The key bytes of all slots: none as long as every key is empty, so that their memory is not
    // touched before.
    bytes: Vec<u8, A>,
    size: usize,
    width: usize,
}

impl<H, A: Allocator> Model for Chunk<H, A> {
    ghost use Rattle.std.specs.Prelude.{vec_capacity};
    ghost use Rattle.arena.specs.Arena.{slots_of};
    ghost use Rattle.arena.specs.Chunk.{Chunk as Cells, cells_of, entries_of, with_free, IsChunk};

    ghost Value = { Cells H };

    ghost view = { λ c. record {
      size = c.size;
      cells = cells_of (with_free (slots_of c.size) (entries_of c.lengths.items c.headers.items))
          c.width c.bytes.items;
    } };

    ghost invariant = { λ c. IsChunk c.lengths.items c.headers.items (vec_capacity c.lengths)
        (vec_capacity c.headers)
        (vec_capacity c.bytes) c.size c.width c.bytes.items };
}

/// Writes the key over the bytes from an index on.
fn write_at(bytes: &mut [u8], from: usize, key: &[u8])
    requires within { from + length key.now ≤ length bytes.old }
    ensures bytes { bytes.new ≡ with_key from key.now bytes.old }
{
    bytes[from..from + key.len()].copy_from_slice(key);
}

/// Fills the bytes with zeros if there are none.
fn make_bytes<A: Allocator>(bytes: &mut Vec<u8, A>)
    requires room { CHUNK_BYTES ≤ vec_capacity bytes.old }
    ensures bytes { bytes.new.items ≡ made_bytes bytes.old.items }
    ensures capacity { vec_capacity bytes.old ≤ vec_capacity bytes.new }
{
    if bytes.is_empty() {
        bytes.resize(CHUNK_BYTES, 0).unwrap();
    }
}

/// Writes the key over the bytes from an index on, and makes the bytes before if there are none. An
/// empty key writes and makes nothing.
fn write_key<A: Allocator>(bytes: &mut Vec<u8, A>, from: usize, key: &[u8])
    requires room { CHUNK_BYTES ≤ vec_capacity bytes.old }
    requires within { from + length key.now ≤ length (made_bytes bytes.old.items) }
    ensures bytes { bytes.new.items ≡ bytes_after_key from key.now bytes.old.items }
    ensures capacity { vec_capacity bytes.old ≤ vec_capacity bytes.new }
{
    if !key.is_empty() {
        make_bytes(bytes);
        write_at(bytes.as_mut_slice(), from, key);
    }
}

/// Adds lengths and headers, if there are fewer, up to those at an index. Their slots are free, so
/// that a copy of any header does.
fn add_free<H: Copy, A: Allocator>(
    lengths: &mut Vec<u16, A>,
    headers: &mut Vec<H, A>,
    index: usize,
    header: H,
)
    requires paired { length headers.old.items ≡ length lengths.old.items }
    requires lengths_room { index < vec_capacity lengths.old }
    requires headers_room { index < vec_capacity headers.old }
    ensures paired { length headers.new.items ≡ length lengths.new.items }
    ensures made { index < length lengths.new.items }
    ensures free { (count : ℕ) → index < count
        → with_free count (entries_of lengths.new.items headers.new.items)
        ≡ with_free count (entries_of lengths.old.items headers.old.items) }
    ensures few { (count : ℕ) → index < count → length lengths.old.items ≤ count
        → length lengths.new.items ≤ count }
    ensures lengths_capacity { vec_capacity lengths.old ≤ vec_capacity lengths.new }
    ensures headers_capacity { vec_capacity headers.old ≤ vec_capacity headers.new }
{
    while lengths.len() <= index {
        lengths.push_reserved(FREE);
        headers.push_reserved(header);
    }
}

/// Returns n bytes from an index on. After the last byte there are none.
fn part(bytes: &[u8], from: usize, count: usize) -> &[u8]
    requires within { count ≤ length bytes.now - from }
    ensures bytes { result.now ≡ take count (drop from bytes.now) }
{
    let begin = from.min(bytes.len());
    &bytes[begin..begin + count]
}

impl<H, A: Allocator> Chunk<H, A> {
    ghost use Rattle.arena.specs.Entry.{Free, Live, held_at};
    ghost use Rattle.arena.specs.ChunkLends.{lends_header};

    /// The index of the slots' size.
    pub(crate) fn size(&self) -> usize
        ensures size { result ≡ self.now.size }
        ensures in_range { result < SIZES }
    {
        self.size
    }

    /// Returns a reference to the header of a live slot.
    pub(crate) fn header(&self, index: usize) -> &H
        requires live { IsSome (held_at self.now.cells index) }
        ensures header { option_map (λ r. r.header) (held_at self.now.cells index)
            ≡ Some result.now }
    {
        &self.headers[index]
    }

    /// Returns a reference to the key of a live slot.
    pub(crate) fn key(&self, index: usize) -> &[u8]
        requires live { IsSome (held_at self.now.cells index) }
        ensures key { option_map (λ r. r.key) (held_at self.now.cells index) ≡ Some result.now }
    {
        let length = self.lengths[index] as usize;
        part(&self.bytes, index * self.width, length)
    }

    /// Returns how many bytes of memory its slots have used so far, of which a header has
    /// `header_bytes`.
    pub(crate) fn bytes_held(&self, header_bytes: usize) -> usize {
        let each = header_bytes.saturating_add(SLOT_BYTES);
        let slots = self.lengths.len().saturating_mul(each);
        slots.saturating_add(self.bytes.len())
    }

    /// Reads the memory of a slot that was given before. The number that is returned says nothing.
    pub(crate) fn read_ahead(&self, index: usize) -> u16 {
        let Some(length) = self.lengths.get(index) else {
            return 0;
        };
        match self.bytes.get(index.wrapping_mul(self.width)) {
            Some(byte) => *length ^ u16::from(*byte),
            None => *length,
        }
    }

    /// Whether the slot at an index is live.
    pub(crate) fn is_live(&self, index: usize) -> bool
        ensures live { result ≡ is_some (held_at self.now.cells index) }
    {
        index < self.lengths.len() && self.lengths[index] != FREE
    }

    /// Frees a live slot.
    pub(crate) fn free(&mut self, index: usize)
        requires live { IsSome (held_at self.old.cells index) }
        ensures freed { self.new ≡ record self.old { cells = slice_set self.old.cells index Free } }
    {
        self.lengths[index] = FREE;
    }

    /// Writes a record into a slot.
    pub(crate) fn fill(&mut self, index: usize, header: H, key: &[u8])
    where
        H: Copy,
        requires within { index < length self.old.cells }
        requires fits { length key.now ≤ slice_index sizes self.old.size }
        ensures filled { self.new ≡ record self.old {
          cells
              = slice_set self.old.cells index (Live (record { header = header; key = key.now }));
        } }
    {
        write_key(&mut self.bytes, index * self.width, key);
        add_free(&mut self.lengths, &mut self.headers, index, header);
        self.lengths[index] = key.len() as u16;
        self.headers[index] = header;
    }

    /// Lends the header of a live slot for writing.
    pub(crate) fn header_mut(&mut self, index: usize) -> &mut H
        requires live { IsSome (held_at self.old.cells index) }
        ensures* lends { sem 𝓛 (lends_header H.row A.row A.Allocator self.entry index result) }
        ensures value { option_map (λ r. r.header) (held_at self.old.cells index)
            ≡ Some result.now }
    {
        &mut self.headers[index]
    }
}

impl<H: Drop, A: Allocator + Copy> Chunk<H, A> {
    ghost use Rattle.arena.specs.Chunk.{IsFresh};

    /// Takes the memory for a chunk. Its slots are free, and none has a length yet.
    pub(crate) fn new(alloc: A, size: usize) -> Result<Self, AllocError>
        requires size { size < SIZES }
        ensures size { IfOk result (λ c. c.size ≡ size) }
        ensures fresh { IfOk result (λ c. IsFresh c.cells (slots_of size)) }
    {
        let count = slots_of(size);
        let width = width_of(size);
        let lengths = Vec::with_capacity(alloc, count)?;
        let headers = Vec::with_capacity(alloc, count)?;
        let bytes = Vec::with_capacity(alloc, CHUNK_BYTES)?;
        Ok(Chunk {
            lengths,
            headers,
            bytes,
            size,
            width,
        })
    }
}
