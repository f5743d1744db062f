//! The write of every key, which represents a history that isn't known.

ghost use Rattle.std.specs.Prelude.{◌≡◌, ◌≤ℤ◌, List, length, vec_len, IfOk, OnOk, IfErr};
ghost use Rattle.keys.specs.declared.key.TheConstants.{MAX_KEY_LENGTH};
ghost use Rattle.keyspace.specs.Writes.{Write, with_write};
ghost use Rattle.stepmap.specs.Boundary.{AreUpTo};
ghost use Rattle.stepmap.specs.Limit.{HasRoomFor};
ghost use Rattle.stepmap.specs.Covers.{MapCovers};
ghost use Rattle.stepmap.specs.Rooted.{Rooted};
ghost use Rattle.conflict.specs.Unknown.{greatest_of_length, every_key};

use crate::error::SetStop;
use keys::{HashedRange, MAX_KEY_LENGTH, RangeRef};
use std::alloc::{AllocError, Global};
use stepmap::{KeyLengths, StepMap};

/// Writes every key at the version. The one error is `Memory`.
pub fn write_every_key(alloc: Global, steps: &mut StepMap, version: i64) -> Result<(), SetStop>
    requires newest { AreUpTo version steps.old.boundaries }
    requires late { steps.old.edge ≤ℤ version }
    requires room { HasRoomFor 1 steps.old }
    ensures covers { OnOk result ((ws : List Write) → MapCovers steps.old ws
        → MapCovers steps.new (with_write ws every_key version)) }
    ensures rooted { OnOk result ((ws : List Write) → Rooted steps.old ws
        → Rooted steps.new (with_write ws every_key version)) }
    ensures newest { OnOk result (AreUpTo version steps.new.boundaries) }
    ensures edge { steps.new.edge ≡ steps.old.edge }
    ensures limit { steps.new.limit ≡ steps.old.limit }
    ensures memory { IfErr result (λ stop. stop ≡ SetStop.Memory) }
{
    let greatest = bytes_of_greatest(alloc, MAX_KEY_LENGTH)?;
    steps.prepare(&[KeyLengths::of(range_of_every_key(&greatest))])?;
    steps.write(HashedRange::of(range_of_every_key(&greatest)), version);
    Ok(())
}

// Returns the bytes of the greatest key of this length.
#[tactic(auto, unfolding(crate::specs::Unknown::greatest_of_length))]
fn bytes_of_greatest(alloc: Global, count: usize) -> Result<Vec<u8>, AllocError>
    ensures bytes { IfOk result (λ bytes. bytes.items ≡ greatest_of_length count) }
    ensures count { IfOk result (λ bytes. vec_len bytes ≡ count) }
{
    vec![in alloc; 255; count]
}

// Returns the range from the empty key to the greatest key.
fn range_of_every_key(greatest: &[u8]) -> RangeRef<'_>
    requires greatest { greatest.now ≡ greatest_of_length MAX_KEY_LENGTH }
    ensures every { result ≡ every_key }
{
    RangeRef::new(&[], greatest)
}
