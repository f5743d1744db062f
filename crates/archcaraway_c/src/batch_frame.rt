//! A batch as one frame, with nothing after it.

ghost use Rattle.std.specs.Prelude.{IfOk, IfErr};
ghost use Rattle.archcaraway_c.specs.BatchFrame.{IsFrame, IsNoFrame};

use crate::refusal::Refusal;
use keyspace::Batch;
use std::alloc::Global;
use wire::decode_batch;

/// Decodes a frame of either wire version, and returns its batch. Bytes after the frame are
/// refused, `Behind`.
pub fn decode_frame(alloc: Global, frame: &[u8]) -> Result<Batch, Refusal>
    ensures frame { IfOk result (λ batch. IsFrame frame.now batch) }
    ensures refused { IfErr result (λ refusal. IsNoFrame frame.now refusal) }
{
    let (batch, length) = match decode_batch(alloc, frame) {
        Ok(found) => found,
        Err(fault) => return Err(Refusal::Wire(fault)),
    };
    if length < frame.len() {
        return Err(Refusal::Behind);
    }
    Ok(batch)
}
