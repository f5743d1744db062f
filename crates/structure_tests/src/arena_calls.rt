//! A worked row of the arena.

use arena::{Arena, ArenaError, MAX_LENGTH, Slot};
use std::alloc::{AllocError, Allocator, Global};
use std::test::Fail;

// Makes a key of `length` bytes.
fn bytes_of(alloc: Global, length: usize) -> Result<Vec<u8>, AllocError> {
    let mut bytes = Vec::with_capacity(alloc, length)?;
    let mut state = 2_654_435_761_u32;
    for _ in 0..length {
        state = state.wrapping_mul(1_664_525).wrapping_add(1_013_904_223);
        bytes.push(state.to_be_bytes()[0])?;
    }
    Ok(bytes)
}

/// Returns whether the slot has this header and this key.
pub fn shows<A: Allocator + Copy>(
    arena: &Arena<u32, A>,
    slot: Slot,
    header: u32,
    key: &[u8],
) -> bool {
    arena.is_live(slot)
        && arena.header(slot) == header
        && *arena.header_ref(slot) == header
        && arena.key(slot) == key
}

// Places a key of this length, and returns whether it is there.
fn is_placed(arena: &mut Arena<u32>, alloc: Global, length: usize) -> Result<bool, AllocError> {
    let key = bytes_of(alloc, length)?;
    match arena.place(7, &key) {
        Ok(slot) => Ok(shows(arena, slot, 7, &key)),
        Err(_refused) => Ok(false),
    }
}

// Places keys of these lengths, for which memory is taken first.
fn are_placed(
    arena: &mut Arena<u32>,
    alloc: Global,
    lengths: &[usize],
) -> Result<bool, AllocError> {
    let mut are_placed = arena.reserve(lengths).is_ok();
    for length in lengths {
        are_placed &= is_placed(arena, alloc, *length)?;
    }
    Ok(are_placed)
}

// Returns whether a longer key than the longest is refused.
fn refuses_longer(arena: &mut Arena<u32>, alloc: Global) -> Result<bool, AllocError> {
    let longer = bytes_of(alloc, 16_385)?;
    Ok(
        arena.reserve(&[5, 16_385]) == Err(ArenaError::TooLong)
            && arena.place(7, &longer).err() == Some(ArenaError::TooLong),
    )
}

fn reserve_and_place(arena: &mut Arena<u32>, alloc: Global) -> Result<bool, AllocError> {
    let are_placed = are_placed(arena, alloc, &[0, 32, 33, MAX_LENGTH])?;
    Ok(are_placed && refuses_longer(arena, alloc)? && arena.live() == 4)
}

// Places a key in an arena that has none, without memory taken first.
fn place_one(arena: &mut Arena<u32>, alloc: Global) -> Result<bool, AllocError> {
    let is_empty = arena.live() == 0;
    Ok(is_empty && is_placed(arena, alloc, 5)? && arena.live() == 1)
}

#[test]
fn arena_reserve_and_place(rt: HostRuntime) -> Result<(), Fail> {
    let mut arena = Arena::new(rt.alloc());
    assert!(rt; reserve_and_place(&mut arena, rt.alloc())?);
    let mut arena = Arena::new(rt.alloc());
    assert!(rt; place_one(&mut arena, rt.alloc())?);
    Ok(())
}
