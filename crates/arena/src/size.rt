//! The sizes of slots, and which of them a key takes.

ghost use Rattle.std.specs.Prelude.{◌≡◌, ℕ, ◌*◌, ◌<◌, ◌≤◌, slice_index, All, Any, IfErr, IfOk};
ghost use Rattle.std.specs.Prelude.{OnOk, OnErr};
ghost use Rattle.arena.specs.Arena.{sizes, size_of, slots_of, wanted_of};
ghost use Rattle.arena.specs.declared.slot.TheConstants.{CHUNK_SLOTS};

use crate::error::ArenaError;

/// The greatest length of a key in an arena, in bytes.
pub const MAX_LENGTH: usize = 16_384;

const _: () = prove!(MAX_LENGTH == 16_384);

/// The key bytes of a chunk.
pub(crate) const CHUNK_BYTES: usize = 16_384;

const _: () = prove!(CHUNK_BYTES == 16_384);

/// The number of sizes that slots have.
pub(crate) const SIZES: usize = 10;

const _: () = prove!(SIZES == 10);

// How many bytes the key of a slot of the least size may have.
const LEAST_WIDTH: usize = 32;

const _: () = prove!(LEAST_WIDTH == 32);

const WIDTHS: [usize; SIZES] = [32, 64, 128, 256, 512, 1024, 2048, 4096, 8192, 16_384];

/// Returns how many bytes the key of a slot of the size may have.
pub(crate) fn width_of(size: usize) -> usize
    requires size { size < SIZES }
    ensures width { result ≡ slice_index sizes size }
    ensures positive { 0 < result }
{
    WIDTHS[size]
}

/// Returns how many slots of the size a chunk has.
pub(crate) fn slots_of(size: usize) -> usize
    requires size { size < SIZES }
    ensures slots { result ≡ slots_of size }
    ensures some { 0 < result }
    ensures at_most { result ≤ CHUNK_SLOTS }
    ensures bytes { result * slice_index sizes size ≡ CHUNK_BYTES }
{
    CHUNK_BYTES / width_of(size)
}

/// Returns the least size that a key of this length fits.
pub(crate) fn size_of(length: usize) -> usize
    ensures size { result ≡ size_of length }
{
    if length <= LEAST_WIDTH {
        return 0;
    }
    WIDTHS.iter().filter(|width| **width < length).count()
}

/// Returns how many of the lengths are of each size, or `TooLong` if one is above `MAX_LENGTH`.
pub(crate) fn count_sizes(lengths: &[usize]) -> Result<[usize; SIZES], ArenaError>
    ensures counts { IfOk result (λ counts. (size : ℕ) → size < SIZES
        → slice_index counts size ≡ wanted_of lengths.now size) }
    ensures fit { OnOk result (All (λ n. n ≤ MAX_LENGTH) lengths.now) }
    ensures one_is_longer { OnErr result (Any (λ n. MAX_LENGTH < n) lengths.now) }
    ensures too_long { IfErr result (λ e. e ≡ ArenaError.TooLong) }
{
    let mut counts = [0; SIZES];
    for length in lengths {
        if *length > MAX_LENGTH {
            return Err(ArenaError::TooLong);
        }
        counts[size_of(*length)] += 1;
    }
    Ok(counts)
}
