//! From frames to what their batches add up to.

ghost use Rattle.std.specs.Prelude.{◌≡◌, ◌<◌, IfErr, OnOk};
ghost use Rattle.batches_tasks.specs.Counting.{Counts, StopsAfterFrames};
ghost use Rattle.batches_tasks.specs.declared.failure.Failure.TheVariants.{Read};

use crate::failure::Failure;
use crate::frame::next_batch;
use crate::stats::Stats;
use std::alloc::Global;
use wire::Source;

/// Reads frames of batches to the end of the input, and counts the batches besides others.
pub fn count_frames<R: Source>(
    alloc: Global,
    reader: &mut R,
    stats: &mut Stats,
) -> Result<(), Failure>
    ensures counted { OnOk result (Counts (R.remaining reader.old) stats.old stats.new) }
    ensures refused { IfErr result (StopsAfterFrames (R.remaining reader.old)) }
    ensures read { IfErr result (λ e. e ≡ Read → R.failures reader.old < R.failures reader.new) }
{
    let mut frame = Vec::new(alloc);
    for number in 1..u64::MAX {
        let Some(batch) = next_batch(alloc, number, reader, &mut frame)? else {
            return Ok(());
        };
        let Some(()) = stats.add(frame.len(), &batch) else {
            return Err(Failure::Memory);
        };
    }
    // The number of one frame more wouldn't fit. No input is so long.
    Err(Failure::Memory)
}
