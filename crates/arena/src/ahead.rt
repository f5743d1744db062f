//! The reading of spare slots before they are given.

use crate::chunk::Chunk;
use crate::slot::Slot;
use std::alloc::Allocator;

// So many spare slots are read at once.
const AHEAD: usize = 16;

/// Reads the memory of the slots that are given next, now and then of several at once: so it is
/// waited for once, and not when each of them is written. The last of the slots is given next. The
/// number that is returned says nothing.
pub(crate) fn read_ahead<H, A: Allocator>(chunks: &[Chunk<H, A>], slots: &[Slot]) -> u16 {
    let mut read = 0;
    if slots.len() % AHEAD == 0 {
        for slot in &slots[slots.len().saturating_sub(AHEAD)..] {
            if let Some(chunk) = chunks.get(slot.chunk()) {
                read ^= chunk.read_ahead(slot.index());
            }
        }
    }
    read
}
