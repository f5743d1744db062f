//! From frames of batches and of replies to what they add up to.

ghost use Rattle.std.specs.Prelude.{◌≡◌, ◌<◌, IfErr, IfOk};
ghost use Rattle.batches_tasks.specs.Tallying.{TalliesBatches, TalliesReplies};
ghost use Rattle.batches_tasks.specs.declared.failure.Failure.TheVariants.{Read};

use crate::failure::Failure;
use crate::frame::{next_batch, next_reply};
use batches_report::Tally;
use std::alloc::Global;
use wire::Source;

/// Reads frames of replies to the end of the input, and adds the replies. Returns how many.
pub fn tally_replies<R: Source>(
    alloc: Global,
    reader: &mut R,
    tally: &mut Tally,
) -> Result<u64, Failure>
    ensures tallied { IfOk result (TalliesReplies (R.remaining reader.old) tally.old tally.new) }
    ensures read { IfErr result (λ e. e ≡ Read → R.failures reader.old < R.failures reader.new) }
{
    let mut frame = Vec::new(alloc);
    for number in 1..u64::MAX {
        let Some(reply) = next_reply(alloc, number, reader, &mut frame)? else {
            return Ok(number - 1);
        };
        tally.add_reply(reply)?;
    }
    // The number of one frame more wouldn't fit. No input is so long.
    Err(Failure::Memory)
}

/// Reads frames of batches to the end of the input, and adds the batches. Returns how many.
pub fn tally_batches<R: Source>(
    alloc: Global,
    reader: &mut R,
    tally: &mut Tally,
) -> Result<u64, Failure>
    ensures tallied { IfOk result (TalliesBatches (R.remaining reader.old) tally.old tally.new) }
    ensures read { IfErr result (λ e. e ≡ Read → R.failures reader.old < R.failures reader.new) }
{
    let mut frame = Vec::new(alloc);
    for number in 1..u64::MAX {
        let Some(batch) = next_batch(alloc, number, reader, &mut frame)? else {
            return Ok(number - 1);
        };
        tally.add_batch(alloc, &batch)?;
    }
    // The number of one frame more wouldn't fit. No input is so long.
    Err(Failure::Memory)
}
