//! The wire: decoding returns the encoded value.

ghost use Rattle.std.specs.Prelude.{◌≡◌, IfOk};

use keyspace::Batch;
use std::alloc::Global;
use wire::{WireError, decode_batch, encode_batch};

/// Encodes a batch as a frame, and decodes the frame. Only a frame that would be too long and
/// memory are refused.
pub fn there_and_back(alloc: Global, batch: &Batch) -> Result<Batch, WireError>
    ensures same { IfOk result (λ again. again ≡ batch.now) }
{
    wire::laws::one_spelling();
    let frame = encode_batch(alloc, batch)?;
    let (again, _) = decode_batch(alloc, &frame)?;
    Ok(again)
}
