//! An arena whose growth is refused.

use crate::arena_calls::shows;
use arena::{Arena, ArenaError, Slot};
use linked_list_allocator::LocalHeap;
use std::alloc::{AllocError, Allocator, Global};
use std::test::Fail;

// Takes what memory the heap has left.
fn rest_of<'a>(
    alloc: Global,
    heap: &'a LocalHeap,
) -> Result<Vec<Vec<u8, &'a LocalHeap>>, AllocError> {
    let mut taken = Vec::new(alloc);
    let mut size = heap.free();
    for _ in 0..200 {
        match Vec::with_capacity(heap, size) {
            Ok(block) => taken.push(block)?,
            Err(_) => size /= 2,
        }
    }
    Ok(taken)
}

// Places 512 keys of one byte each, and returns the slot of the key at this index.
fn fill_chunk<A: Allocator + Copy>(arena: &mut Arena<u32, A>, index: u32) -> Option<Slot> {
    let mut found = None;
    for number in 0..512_u32 {
        let placed = arena.place(number, &[(number % 256) as u8]);
        if number == index {
            found = placed.ok();
        }
    }
    found
}

// Releases the slot, and places another key, which is given the slot again.
fn replaces<A: Allocator + Copy>(arena: &mut Arena<u32, A>, slot: Slot) -> bool {
    if !arena.is_live(slot) {
        return false;
    }
    arena.release(slot);
    arena.live() == 511
        && !arena.is_live(slot)
        && arena.reserve(&[20]).is_ok()
        && arena.place(1000, b"twenty bytes of text") == Ok(slot)
        && shows(arena, slot, 1000, b"twenty bytes of text")
}

// Fills a chunk that is reserved, and replaces a key. No call is refused.
fn fills_and_replaces<A: Allocator + Copy>(arena: &mut Arena<u32, A>) -> bool {
    let Some(slot) = fill_chunk(arena, 100) else {
        return false;
    };
    arena.live() == 512
        && shows(arena, slot, 100, &[100])
        && replaces(arena, slot)
        && arena.live() == 512
}

// Returns whether each call is refused that wants a slot more than there are.
fn refuses_growth(arena: &mut Arena<u32, &LocalHeap>) -> bool {
    arena.reserve(&[33]) == Err(ArenaError::Memory)
        && arena.reserve(&[1, 33]) == Err(ArenaError::Memory)
        && arena.reserve_slots(33, 300) == Err(ArenaError::Memory)
        && arena.place(1, &[0; 33]).err() == Some(ArenaError::Memory)
        && arena.place(1, b"no slot is left").err() == Some(ArenaError::Memory)
}

// Fills a chunk that is reserved, once no memory is left. Then no other slot is given.
fn at_full_heap(alloc: Global, heap: &LocalHeap) -> Result<bool, AllocError> {
    let mut arena: Arena<u32, &LocalHeap> = Arena::new(heap);
    let is_reserved = arena.reserve(&[1; 512]).is_ok();
    let _rest = rest_of(alloc, heap)?;
    Ok(
        is_reserved
            && fills_and_replaces(&mut arena)
            && refuses_growth(&mut arena)
            && arena.live() == 512,
    )
}

#[test]
fn arena_chunk_and_refusal(rt: HostRuntime) -> Result<(), Fail> {
    let heap = LocalHeap::new(rt.alloc(), 200_000)?;
    assert!(rt; at_full_heap(rt.alloc(), &heap)?);
    Ok(())
}

// Places a record. If memory is refused, which changes nothing, it tries once more.
fn place_at_last(arena: &mut Arena<u32>, header: u32, key: &[u8]) -> Option<Slot> {
    let live = arena.live();
    match arena.place(header, key) {
        Err(ArenaError::Memory) if arena.live() == live => arena.place(header, key).ok(),
        placed => placed.ok(),
    }
}

// Reserves slots. If memory is refused, which changes nothing, it tries once more.
fn is_reserved_at_last(arena: &mut Arena<u32>, lengths: &[usize]) -> bool {
    let live = arena.live();
    match arena.reserve(lengths) {
        Err(ArenaError::Memory) if arena.live() == live => arena.reserve(lengths).is_ok(),
        reserved => reserved.is_ok(),
    }
}

// Reserves slots. No key of a reserved length is refused.
fn reserves(arena: &mut Arena<u32>) -> bool {
    is_reserved_at_last(arena, &[3, 40, 16_000])
        && arena.place(1, b"key").is_ok()
        && arena.place(2, &[7; 40]).is_ok()
}

// Its outcome is the same whichever one growth is refused.
#[test]
fn one_growth_refused(rt: HostRuntime) {
    let mut arena = Arena::new(rt.alloc());
    let Some(slot) = place_at_last(&mut arena, 0, b"first") else {
        panic!(rt; "the first place was refused twice");
    };
    assert!(rt; reserves(&mut arena));
    for number in 3..600_u32 {
        assert!(rt; place_at_last(&mut arena, number, b"").is_some());
    }
    assert_eq!(rt; arena.live(), 600);
    assert!(rt; shows(&arena, slot, 0, b"first"));
}

// The calls of `arena_chunk_and_refusal`: no key of a reserved length is refused, and the slot that
// was released is given again.
#[test]
fn chunk_with_one_growth_refused(rt: HostRuntime) {
    let mut arena = Arena::new(rt.alloc());
    assert!(rt; is_reserved_at_last(&mut arena, &[1; 512]));
    assert!(rt; fills_and_replaces(&mut arena));
    assert!(rt; is_reserved_at_last(&mut arena, &[33, 33, 16_000]));
    assert_eq!(rt; arena.live(), 512);
}
