//! How a lane is made: both of its ends at once.

ghost use Rattle.std.specs.Prelude.{◌≡◌, ◌<◌, ◌≤◌, ◌↔◌, IsTrue, IfOk};
ghost use Rattle.limits.specs.declared.settings.TheConstants.{MAX_CAPACITY};
ghost use Rattle.lane.specs.Lane.{SameLane, IntakeContinues, new_port, new_intake};
ghost use Rattle.lane.specs.Calls.{Meets};

use crate::error::LaneError;
use crate::intake::{Intake, IntakeCounts};
use crate::port::{Port, PortCounts};
use crate::ring::joined_tokens::{join, part};
use crate::ring::{Ring, WORDS};
use crate::{intake, port};
use crossbeam_utils::CachePadded;
use std::alloc::Global;
use std::sync::Arc;

/// Makes a lane that holds at most `capacity` items, and returns its two ends, for two threads.
pub fn lane<T: Drop>(alloc: Global, capacity: usize) -> Result<(Port<T>, Intake<T>), LaneError>
    requires some { 0 < capacity }
    requires limit { capacity ≤ MAX_CAPACITY }
    ensures same_lane { IfOk result (λ ends. SameLane ends.0 ends.1) }
    ensures port { IfOk result (λ ends. ends.0 ≡ new_port ends.0.lane capacity) }
    ensures intake { IfOk result (λ ends. ends.1 ≡ new_intake ends.0.lane capacity) }
{
    let (ring, mut takes) = Ring::vacant(alloc, &[0; WORDS], capacity, &())?;
    let sends = part(&ring, &mut takes);
    let Ok(ring) = Arc::new(alloc, ring) else {
        return Err(LaneError::Memory);
    };
    let shared = Arc::try_clone(&ring)?;
    let port = Port {
        ring,
        token: Some(sends),
        counts: CachePadded::new(PortCounts {
            capacity,
            sent: 0,
            seen_taken: 0,
            closed: false,
        }),
    };
    let intake = Intake {
        ring: shared,
        token: takes,
        counts: CachePadded::new(IntakeCounts {
            capacity,
            taken: 0,
            seen_sent: 0,
            seen_close: false,
        }),
    };
    Ok((port, intake))
}

/// Returns whether all that was sent on the lane is taken. Each end looks at the other, and sees
/// what is.
pub fn agree<T>(port: &mut Port<T>, intake: &mut Intake<T>) -> bool
    requires same_lane { SameLane port.old intake.old }
    ensures meets { Meets port.old intake.old port.new intake.new }
    ensures intake { IntakeContinues intake.old intake.new }
    ensures taken { intake.new.taken ≡ intake.old.taken }
    ensures all_taken { IsTrue result ↔ (intake.old.taken ≡ port.old.sent) }
{
    let Some(theirs) = port.token.take() else {
        unreachable!()
    };
    join(&intake.ring, &mut intake.token, theirs);
    intake::look(&intake.ring, &mut intake.token, &mut intake.counts);
    port::look(&intake.ring, &mut intake.token, &mut port.counts);
    port.token = Some(part(&intake.ring, &mut intake.token));
    intake.counts.taken == port.counts.sent
}
