//! A lane: an item sent at one end is taken at the other.

ghost use Rattle.std.specs.Prelude.{◌≡◌, IfOk};

use lane::{LaneError, Taken, lane};
use std::alloc::Global;

/// Sends an item along a new lane, and takes it with both ends in one thread.
pub fn through(alloc: Global, item: u64) -> Result<u64, LaneError>
    ensures same { IfOk result (λ taken. taken ≡ item) }
{
    let (mut port, mut intake) = lane(alloc, 1)?;
    port.send(item).unwrap();
    match intake.take_beside(&mut port) {
        Taken::Item(taken) => Ok(taken),
        Taken::Empty | Taken::End => unreachable!(),
    }
}
