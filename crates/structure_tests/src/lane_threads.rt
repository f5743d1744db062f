//! A lane from one thread to another.
ghost use Rattle.std.specs.Prelude.{◌≡◌, ◌<◌, ◌≤◌};

use lane::{Intake, LaneError, MAX_CAPACITY, Port, Refused, Taken, agree, lane};
use std::alloc::Global;
use std::sync::Wait;
use std::test::Fail;
use std::thread;
use std::thread::Threads;

// How many calls a thread makes before it leaves its processor to others. The thread at the other
// end of the lane mostly runs at the same time, and needs less time for an item than a change of
// threads takes.
const ATTEMPTS: usize = 256;

/// Sends the item once the lane takes it. Another refusal is left to the intake to find.
fn send_at_last<R: Wait>(rt: &R, port: &mut Port<u32>, item: u32)
    ensures same_lane { (port.new.lane ≡ port.old.lane) × (port.new.capacity ≡ port.old.capacity) }
{
    for _ in rt.forever() {
        for _attempt in 0..ATTEMPTS {
            match port.send(item) {
                Err(Refused::Full(_)) => {}
                _ => return,
            }
        }
        thread::yield_now();
    }
}

/// The next item, or `None` at the end of the lane.
fn next<R: Wait>(rt: &R, intake: &mut Intake<u32>) -> Option<u32>
    ensures same_lane { (intake.new.lane ≡ intake.old.lane)
        × (intake.new.capacity ≡ intake.old.capacity) }
{
    for _ in rt.forever() {
        for _attempt in 0..ATTEMPTS {
            match intake.take() {
                Taken::Item(item) => return Some(item),
                Taken::Empty => {}
                Taken::End => return None,
            }
        }
        thread::yield_now();
    }
    unreachable!()
}

/// Sends the numbers below 100,000 and closes the lane.
fn send_all<R: Wait>(rt: &R, mut port: Port<u32>) -> Port<u32>
    ensures same_lane { (result.lane ≡ port.lane) × (result.capacity ≡ port.capacity) }
{
    for number in 0..100_000 {
        send_at_last(rt, &mut port, number);
    }
    port.close();
    port
}

/// Whether the numbers below 100,000 come in order, and then the end of the lane.
fn take_all<R: Wait>(rt: &R, mut intake: Intake<u32>) -> (Intake<u32>, bool)
    ensures same_lane { (result.0.lane ≡ intake.lane) × (result.0.capacity ≡ intake.capacity) }
{
    let mut in_order = true;
    for number in 0..100_000 {
        in_order &= next(rt, &mut intake) == Some(number);
    }
    let ended = next(rt, &mut intake).is_none();
    (intake, in_order && ended)
}

/// Whether the numbers go in order through a lane of this capacity, from one thread to another, and
/// the ends agree then.
fn carries<R: Threads + Wait + Sync>(
    rt: &R,
    alloc: Global,
    capacity: usize,
) -> Result<bool, LaneError>
    requires some { 0 < capacity }
    requires limit { capacity ≤ MAX_CAPACITY }
{
    let (port, intake) = lane(alloc, capacity)?;
    let (mut port, (mut intake, in_order)) = thread::join(
        rt,
        move || -> Port<u32>
            ensures same_lane { (result.lane ≡ port.lane) × (result.capacity ≡ port.capacity) }
        { send_all(rt, port) },
        move || -> (Intake<u32>, bool)
            ensures same_lane { (result.0.lane ≡ intake.lane)
                × (result.0.capacity ≡ intake.capacity) }
        { take_all(rt, intake) },
    );
    Ok(in_order && agree(&mut port, &mut intake))
}

#[test]
fn hundred_thousand_items(rt: HostRuntime) -> Result<(), Fail> {
    for capacity in [3, 1] {
        assert!(rt; carries(&rt, rt.alloc(), capacity)?, "at {capacity}");
    }
    Ok(())
}
