//! The batch that starts a chain at a version.

ghost use Rattle.std.specs.Prelude.{◌≡◌, ◌≢◌, ◌<◌, ◌≤ℤ◌, pos, IfErr, IfOk, OnOk, vec_len};
ghost use Rattle.std.specs.Io.KnownBytes.{Appends};
ghost use Rattle.keys.specs.declared.key.TheConstants.{MAX_KEY_LENGTH};
ghost use Rattle.wire.specs.Fields.{batch_fields, range_fields};
ghost use Rattle.batches_tasks.specs.Opening.{every_key, greatest_key, opening_fields};
ghost use Rattle.batches_tasks.specs.Opening.{opening_frame};
ghost use Rattle.batches_tasks.specs.declared.failure.Failure.TheVariants.{Write};

use crate::failure::Failure;
use keys::{Key, MAX_KEY_LENGTH, Range};
use keyspace::{Batch, Sequence, Txn, Txns};
use std::alloc::{AllocError, Global};
use wire::{Sink, encode_batch, write_and_flush};

/// Writes the frame of the batch that starts a chain at this version, and flushes the output. The
/// batch has no batch before it, and its one transaction writes every key. So a later read
/// conflicts exactly if it does by a later write, or if its range isn't empty and its snapshot is
/// below the version.
pub fn write_opening<W: Sink>(alloc: Global, version: i64, out: &mut W) -> Result<(), Failure>
    requires natural { pos 0 ≤ℤ version }
    ensures frame { OnOk result
        (Appends (W.given out.old) (W.given out.new) (opening_frame version)) }
    ensures refused { IfErr result (λ e. e ≢ Write → W.given out.new ≡ W.given out.old) }
    ensures write { IfErr result (λ e. e ≡ Write → W.failures out.old < W.failures out.new) }
    ensures ok { OnOk result (W.failures out.new ≡ W.failures out.old) }
{
    let frame = frame_of_opening(alloc, version)?;
    Ok(write_and_flush(out, &frame)?)
}

fn frame_of_opening(alloc: Global, version: i64) -> Result<Vec<u8>, Failure>
    requires natural { pos 0 ≤ℤ version }
    ensures frame { IfOk result (λ frame. frame.items ≡ opening_frame version) }
    ensures memory { IfErr result (λ e. e ≢ Write) }
{
    let batch = opening(alloc, version)?;
    match encode_batch(alloc, &batch) {
        Ok(frame) => Ok(frame),
        // The batch is known to be short enough.
        Err(_) => Err(Failure::Memory),
    }
}

fn opening(alloc: Global, version: i64) -> Result<Batch, Failure>
    requires natural { pos 0 ≤ℤ version }
    ensures batch { IfOk result (λ batch. batch_fields batch ≡ opening_fields version) }
    ensures memory { IfErr result (λ e. e ≢ Write) }
{
    let mut writes = Vec::new(alloc);
    writes.push(range_of_every_key(alloc)?)?;
    let reads = Sequence::new(Vec::new(alloc));
    let mut txns = Vec::new(alloc);
    txns.push(Txn::new(0, false, reads, Sequence::new(writes)))?;
    let txns = Txns::new(alloc, txns)?;
    Ok(Batch::new(-1, version, -1, txns))
}

// Returns the range from the empty key to the greatest key.
fn range_of_every_key(alloc: Global) -> Result<Range, Failure>
    ensures range { IfOk result (λ range. range_fields range ≡ every_key) }
    ensures memory { IfErr result (λ e. e ≢ Write) }
{
    let greatest = bytes_of_greatest(alloc)?;
    Ok(Range::new(Key::new(Vec::new(alloc)), Key::new(greatest)))
}

#[tactic(auto, unfolding(crate::specs::Opening::greatest_key))]
fn bytes_of_greatest(alloc: Global) -> Result<Vec<u8>, AllocError>
    ensures bytes { IfOk result (λ bytes. bytes.items ≡ greatest_key) }
    ensures count { IfOk result (λ bytes. vec_len bytes ≡ MAX_KEY_LENGTH) }
{
    vec![in alloc; 255; MAX_KEY_LENGTH]
}
