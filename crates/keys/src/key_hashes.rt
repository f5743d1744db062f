//! The hash of a key, by which a filter finds its cell.

ghost use Rattle.std.specs.Prelude.{◌≡◌, ◌↔◌, ◌^◌, ◌<◌, List, All, Any, IfOk, IsTrue};
ghost use Rattle.keys.specs.Head.{head_of};
ghost use Rattle.keys.specs.Hash.{hash_of, mixed_hash, mixture_of, AreHashesOf};
ghost use Rattle.keys.specs.Range.{IsSingle};
ghost use Rattle.keys.specs.declared.range.Range.{Range};

use crate::prefix::key_head;
use crate::range_list::RangeList;
use std::alloc::{AllocError, Global};

// An odd number whose products spread: it is that of SplitMix64.
const FACTOR: u64 = 0xBF58_476D_1CE4_E5B9;

const _: () = prove!(FACTOR == 0xBF58_476D_1CE4_E5B9);

// Two to the power of 32: a number of 64 bits divided by it is its high half.
const HALF: u64 = 0x1_0000_0000;

/// Returns a number of 32 bits made of the length of the key and of five times eight of its bytes,
/// which begin at its first, last and middle ones and halfway between these. Of a key of up to 38
/// bytes, all bytes count. It takes no loop.
pub fn key_hash(key: &[u8]) -> u32
    ensures hash { result ≡ hash_of key.now }
{
    // Keys that differ in a few bytes differ in the high half.
    (mixture(key) / HALF) as u32
}

/// Returns for each of the ranges, in order, what
/// [`RangeRef::single_hash`](crate::RangeRef::single_hash) returns for it, or an error if memory is
/// refused. If no range is a single key, it returns none at all and takes no memory.
pub fn single_hashes<L: RangeList>(
    alloc: Global,
    ranges: &L,
) -> Result<Vec<Option<u32>>, AllocError>
    ensures hashes { IfOk result (λ hashes. AreHashesOf (L.ranges ranges.now) hashes.items) }
{
    if !has_single(ranges) {
        return Ok(Vec::new(alloc));
    }
    let mut hashes = Vec::with_capacity(alloc, ranges.len())?;
    for index in 0..ranges.len() {
        hashes.push(ranges.range(index).single_hash())?;
    }
    Ok(hashes)
}

/// Returns `true` if there are hashes, and each of the ranges that they are of is a single key.
pub fn are_all_single(hashes: &[Option<u32>]) -> bool
    ensures single { IsTrue result → (ranges : List Range) → AreHashesOf ranges hashes.now
        → All IsSingle ranges }
{
    for hash in hashes {
        if hash.is_none() {
            return false;
        }
    }
    !hashes.is_empty()
}

// Returns `true` if some range is a single key.
fn has_single<L: RangeList>(ranges: &L) -> bool
    ensures single { IsTrue result ↔ Any IsSingle (L.ranges ranges.now) }
{
    for index in 0..ranges.len() {
        if ranges.range(index).is_single() {
            return true;
        }
    }
    false
}

// Returns the words mixed into the length, in 64 bits.
fn mixture(key: &[u8]) -> u64
    ensures mixture { result ≡ mixture_of key.now }
    ensures bits { result < 2 ^ 64 }
{
    let last = key.len().saturating_sub(8);
    let quarter = last / 4;
    let first = mix(key.len() as u64, key);
    let second = mix(first, &key[quarter..]);
    let third = mix(second, &key[last / 2..]);
    let fourth = mix(third, &key[last - quarter..]);
    mix(fourth, &key[last..]).wrapping_mul(FACTOR)
}

// Mixes in the first eight bytes.
fn mix(hash: u64, bytes: &[u8]) -> u64
    ensures mixed { result ≡ mixed_hash hash (head_of bytes.now) }
{
    hash.wrapping_mul(FACTOR).wrapping_add(key_head(bytes))
}
