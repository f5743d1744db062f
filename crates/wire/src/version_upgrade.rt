//! From either wire version to version 2.

ghost use Rattle.std.specs.Prelude.{◌≡◌, ◌≢◌, ◌++◌, ◌<◌, ◌↔◌, ℕ, List, IfOk, IfErr, IfSome, OnOk};
ghost use Rattle.std.specs.Prelude.{IsErrOf, IsTrue, not};
ghost use Rattle.std.specs.Io.KnownBytes.{Appends, Keeps, IsAtEnd};
ghost use Rattle.keyspace.specs.declared.batch.Batch.{Batch as BatchValue};
ghost use Rattle.wire.specs.NextFrame.{TakesFrame, TakesPart};
ghost use Rattle.wire.specs.Upgrade.{new_frame, ComesFrom, Upgrades, StopsAt, BreaksOff};

use crate::encode::encode_batch;
use crate::error::WireError;
use crate::frames::read_next;
use crate::sink::{Sink, write_all};
use crate::source::Source;
use std::alloc::Global;

// Upgrades the next frame. Returns whether there was one.
fn upgrade_next<R: Source, W: Sink>(
    alloc: Global,
    reader: &mut R,
    writer: &mut W,
) -> Result<bool, WireError>
    ensures frame { IfOk result (λ more. IsTrue more → (batch : BatchValue)
        × TakesFrame (R.remaining reader.old) (R.remaining reader.new) batch
        × Appends (W.given writer.old) (W.given writer.new) (new_frame batch)) }
    ensures end { IfOk result (λ more. IsTrue (not more)
        → IsAtEnd (R.remaining reader.old) × IsAtEnd (R.remaining reader.new)
        × (W.given writer.new ≡ W.given writer.old)) }
    ensures refused { IfErr result (λ e. e ≢ WireError.Write
        → IfSome (R.remaining reader.old) (ComesFrom e)
        × (W.given writer.new ≡ W.given writer.old)) }
    ensures part { IfErr result (λ e. e ≢ WireError.Write
        → TakesPart (R.remaining reader.old) (R.remaining reader.new) e) }
    ensures broken_off { IfErr result (λ e. e ≡ WireError.Write → (batch : BatchValue)
        × TakesFrame (R.remaining reader.old) (R.remaining reader.new) batch
        × IfSome (W.given writer.new) (λ _. (bytes rest : List ℕ)
        × (new_frame batch ≡ bytes ++ rest)
        × Appends (W.given writer.old) (W.given writer.new) bytes)) }
    ensures read_ok { OnOk result (R.failures reader.new ≡ R.failures reader.old) }
    ensures read { IfErr result (λ e. e ≡ WireError.Read
        → R.failures reader.old < R.failures reader.new) }
    ensures no_read { IfErr result (λ e. e ≢ WireError.Read
        → R.failures reader.new ≡ R.failures reader.old) }
    ensures write_ok { OnOk result (W.failures writer.new ≡ W.failures writer.old) }
    ensures write { IfErr result (λ e. e ≡ WireError.Write
        → W.failures writer.old < W.failures writer.new) }
    ensures no_write { IfErr result (λ e. e ≢ WireError.Write
        → W.failures writer.new ≡ W.failures writer.old) }
{
    let Some(batch) = read_next(alloc, reader)? else {
        return Ok(false);
    };
    let frame = encode_batch(alloc, &batch)?;
    match write_all(writer, &frame) {
        Ok(()) => Ok(true),
        Err(_) => Err(WireError::Write),
    }
}

/// Reads batches of either wire version to the end of the input, writes each as a frame of version
/// 2, and returns how many there were. Takes memory for one frame at a time.
///
/// Is refused as [`Frames::next`](crate::Frames::next) and [`encode_batch`] are, and returns
/// `Write` only if the writer failed in this call. `Memory` also says that 2^64 - 1 frames are
/// written. After any other refusal than `Write` the frames of the batches before it are written
/// completely, and nothing beyond the next frame was read. After `Write` a prefix of the new frames
/// is written.
pub fn upgrade<R: Source, W: Sink>(
    alloc: Global,
    reader: &mut R,
    writer: &mut W,
) -> Result<u64, WireError>
    ensures upgraded { IfOk result
        (Upgrades (R.remaining reader.old) (W.given writer.old) (W.given writer.new)) }
    ensures end { OnOk result (IsAtEnd (R.remaining reader.new)) }
    ensures refused { IfErr result (λ e. e ≢ WireError.Write
        → StopsAt (R.remaining reader.old) (R.remaining reader.new)
        (W.given writer.old) (W.given writer.new) e) }
    ensures broken_off { IfErr result (λ e. e ≡ WireError.Write
        → BreaksOff (R.remaining reader.old) (W.given writer.old) (W.given writer.new)) }
    ensures read { IsErrOf result WireError.Read ↔ (R.failures reader.old < R.failures reader.new) }
    ensures write { IsErrOf result WireError.Write
        ↔ (W.failures writer.old < W.failures writer.new) }
    ensures read_ok { OnOk result (R.failures reader.new ≡ R.failures reader.old) }
    ensures write_ok { OnOk result (W.failures writer.new ≡ W.failures writer.old) }
{
    for count in 0..u64::MAX {
        if !upgrade_next(alloc, reader, writer)? {
            return Ok(count);
        }
    }
    // The count of one frame more wouldn't fit. No input is so long.
    Err(WireError::Memory)
}
