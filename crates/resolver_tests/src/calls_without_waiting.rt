//! No call over lanes waits for another thread: functions that are given nothing to wait with make
//! each of them.

use crate::service::Service;
use lane::{Taken, agree, lane};
use resolver::{Account, Turn};
use std::alloc::Global;
use std::test::Fail;
use test_values::Unmade;

// Makes each call of a lane of one.
fn over_a_lane(alloc: Global) -> Result<bool, Unmade> {
    let Ok((mut port, mut intake)) = lane(alloc, 1) else {
        return Err(Unmade::Memory);
    };
    let is_sent = port.send(7).is_ok();
    let is_taken = intake.take_beside(&mut port) == Taken::Item(7);
    let is_all_taken = agree(&mut port, &mut intake);
    let are_counted = port.sent() == 1 && intake.taken() == 1;
    port.close();
    Ok(is_sent && is_taken && is_all_taken && are_counted && intake.take() == Taken::End)
}

// Makes each call of a resolver of one proxy that sends nothing.
fn over_a_service(service: &mut Service) -> Result<bool, Unmade> {
    let is_idle = service.turn() == Ok(Turn::Idle);
    service.close(0)?;
    let is_done = service.turn() == Ok(Turn::Done);
    let account = Account {
        complete: true,
        stop: None,
    };
    Ok(is_idle && is_done && service.sent(0) == 0 && service.settle() == account)
}

fn over_a_resolver(alloc: Global) -> Result<bool, Unmade> {
    match Service::open(alloc, 1, 1)? {
        Ok(mut service) => over_a_service(&mut service),
        Err(_refused) => Err(Unmade::Memory),
    }
}

#[test]
fn calls_without_waiting(rt: HostRuntime) -> Result<(), Fail> {
    assert!(rt; over_a_lane(rt.alloc())?);
    assert!(rt; over_a_resolver(rt.alloc())?);
    Ok(())
}
