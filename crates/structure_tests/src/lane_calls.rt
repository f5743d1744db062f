//! The worked row of a lane whose two ends are in one thread, and a growth that is refused.
ghost use Rattle.std.specs.Prelude.{◌<◌, ◌≤◌};
ghost use Rattle.lane.specs.Lane.{SameLane};

use lane::{Intake, LaneError, MAX_CAPACITY, Port, Refused, Taken, lane};
use std::alloc::Global;
use std::test::Fail;

// The two ends of a lane.
#[derive(Drop)]
struct LaneEnds {
    port: Port<u32>,
    intake: Intake<u32>,
    ghost same_lane: { SameLane port intake },
}

impl LaneEnds {
    fn new(alloc: Global, capacity: usize) -> Result<Self, LaneError>
        requires some { 0 < capacity }
        requires limit { capacity ≤ MAX_CAPACITY }
    {
        let (port, intake) = lane(alloc, capacity)?;
        Ok(LaneEnds { port, intake })
    }

    fn sends(&mut self, item: u32, answer: Result<(), Refused<u32>>) -> bool {
        self.port.send(item) == answer
    }

    fn takes(&mut self, answer: Taken<u32>) -> bool {
        self.intake.take_beside(&mut self.port) == answer
    }

    // Makes the call, and returns whether it answers so.
    fn answers(&mut self, step: Step) -> bool {
        match step {
            Step::Send(item) => self.sends(item, Ok(())),
            Step::Full(item) => self.sends(item, Err(Refused::Full(item))),
            Step::Closed(item) => self.sends(item, Err(Refused::Closed(item))),
            Step::Take(item) => self.takes(Taken::Item(item)),
            Step::End => self.takes(Taken::End),
            Step::Close => {
                self.port.close();
                true
            }
        }
    }
}

// A call of a lane, with its answer. It takes beside the port.
#[derive(Clone, Copy)]
enum Step {
    // The item is sent.
    Send(u32),
    // The lane is full, and the item is returned.
    Full(u32),
    // The lane is closed, and the item is returned.
    Closed(u32),
    // The item is taken.
    Take(u32),
    // The lane has ended.
    End,
    Close,
}

const LANE_OF_ONE: [Step; 9] = [
    Step::Send(7),
    Step::Full(8),
    Step::Take(7),
    Step::Send(8),
    Step::Close,
    Step::Closed(9),
    Step::Take(8),
    Step::End,
    Step::End,
];

// Makes these calls, and returns the index of the first that is answered otherwise.
fn first_wrong(ends: &mut LaneEnds, steps: &[Step]) -> Option<usize> {
    for (index, step) in steps.iter().enumerate() {
        if !ends.answers(*step) {
            return Some(index);
        }
    }
    None
}

#[test]
fn lane_of_one(rt: HostRuntime) -> Result<(), Fail> {
    let mut ends = LaneEnds::new(rt.alloc(), 1)?;
    assert_eq!(rt; first_wrong(&mut ends, &LANE_OF_ONE), None);
    Ok(())
}

// Returns whether an item goes through the lane, or memory was refused.
fn carries_or_refused(made: Result<(Port<u32>, Intake<u32>), LaneError>) -> bool {
    match made {
        Ok((mut port, mut intake)) => { port.send(7) == Ok(()) && intake.take() == Taken::Item(7) }
        Err(refusal) => refusal == LaneError::Memory,
    }
}

/// Its outcome is the same whichever one growth is refused.
#[test]
fn one_growth_refused(rt: HostRuntime) {
    let first = lane::<u32>(rt.alloc(), 4);
    let again = lane::<u32>(rt.alloc(), 4);
    assert!(rt; first.is_ok() || again.is_ok());
    assert!(rt; carries_or_refused(first));
    assert!(rt; carries_or_refused(again));
}
