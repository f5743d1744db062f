//! The worked rows over lanes.

use crate::service::Service;
use lane::Taken;
use resolver::{Account, Turn};
use std::alloc::Global;
use std::process::Abort;
use std::test::Fail;
use test_values::{Unmade, batch};

// A call, with its answer.
#[derive(Clone, Copy)]
enum Step<'a> {
    // The proxy sends a batch, which its lane accepts.
    Send(usize, &'a str),
    Close(usize),
    Turn(Turn),
    Owed(usize),
    // The proxy takes this answer.
    Take(usize, &'a str),
    // The proxy takes the end of its lane.
    End(usize),
    // There is no stop, and all is settled or not.
    Settle(bool),
}

// Makes the call, and returns whether it answers so.
fn answers(service: &mut Service, alloc: Global, step: Step<'_>) -> Result<bool, Unmade> {
    match step {
        Step::Send(proxy, text) => service.send(proxy, batch(alloc, text)?),
        Step::Close(proxy) => {
            service.close(proxy)?;
            Ok(true)
        }
        Step::Turn(turn) => Ok(service.turn() == Ok(turn)),
        Step::Owed(count) => Ok(service.owed() == count),
        Step::Take(proxy, text) => Ok(service.takes(alloc, proxy, text)? == Taken::Item(true)),
        Step::End(proxy) => Ok(service.takes(alloc, proxy, "")? == Taken::End),
        Step::Settle(complete) => {
            let stop = None;
            Ok(service.settle() == Account { complete, stop })
        }
    }
}

// Returns the index of the first step that is answered otherwise.
fn first_wrong(
    service: &mut Service,
    alloc: Global,
    steps: &[Step<'_>],
) -> Result<Option<usize>, Unmade> {
    for (index, step) in steps.iter().enumerate() {
        if !answers(service, alloc, *step)? {
            return Ok(Some(index));
        }
    }
    Ok(None)
}

// Makes the steps over new lanes: so many proxies, and the capacity.
fn outcome(
    alloc: Global,
    (proxies, capacity): (usize, usize),
    steps: &[Step<'_>],
) -> Result<Option<usize>, Unmade> {
    match Service::open(alloc, proxies, capacity)? {
        Ok(mut service) => first_wrong(&mut service, alloc, steps),
        Err(_refused) => Err(Unmade::Memory),
    }
}

fn go_through(
    rt: &impl Abort,
    alloc: Global,
    lanes: (usize, usize),
    steps: &[Step<'_>],
) -> Result<(), Fail> {
    assert_eq!(rt; outcome(alloc, lanes, steps)?, None);
    Ok(())
}

const REPLY_LANE_OF_ONE: &[Step<'static>] = &[
    Step::Send(0, "-1>0"),
    Step::Turn(Turn::Took(0)),
    Step::Owed(0),
    Step::Send(0, "0>100"),
    Step::Turn(Turn::Took(0)),
    Step::Owed(1),
    Step::Close(0),
    Step::Turn(Turn::Idle),
    Step::Owed(1),
    Step::Take(0, "0 empty"),
    Step::Turn(Turn::Done),
    Step::Owed(0),
    Step::Take(0, "100 empty"),
    Step::End(0),
    Step::Settle(true),
];

#[test]
fn reply_lane_of_one(rt: HostRuntime) -> Result<(), Fail> {
    go_through(&rt, rt.alloc(), (1, 1), REPLY_LANE_OF_ONE)
}

const BEFORE_AND_AFTER_TAKING: &[Step<'static>] = &[
    Step::Send(0, "-1>0"),
    Step::Turn(Turn::Took(0)),
    Step::Close(0),
    Step::Turn(Turn::Done),
    Step::Settle(false),
    Step::Take(0, "0 empty"),
    Step::Settle(true),
];

#[test]
fn settle_before_and_after_taking(rt: HostRuntime) -> Result<(), Fail> {
    go_through(&rt, rt.alloc(), (1, 1), BEFORE_AND_AFTER_TAKING)
}

const TURNS: &[Step<'static>] = &[
    Step::Send(0, "-1>0"),
    Step::Send(0, "100>200"),
    Step::Send(1, "0>100"),
    Step::Send(1, "200>300"),
    Step::Turn(Turn::Took(0)),
    Step::Turn(Turn::Took(1)),
    Step::Turn(Turn::Took(0)),
    Step::Turn(Turn::Took(1)),
];

#[test]
fn turns_go_round(rt: HostRuntime) -> Result<(), Fail> {
    go_through(&rt, rt.alloc(), (2, 2), TURNS)
}

const HELD_AT_CLOSE: &[Step<'static>] = &[
    Step::Send(0, "900>1000"),
    Step::Turn(Turn::Took(0)),
    Step::Close(0),
    Step::Settle(false),
    Step::Turn(Turn::Done),
    Step::Take(0, "1000 held"),
    Step::Settle(true),
];

#[test]
fn held_at_close(rt: HostRuntime) -> Result<(), Fail> {
    go_through(&rt, rt.alloc(), (1, 1), HELD_AT_CLOSE)
}
