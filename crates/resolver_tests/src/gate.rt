//! A core whose gate is full.

use crate::made::is_given;
use crate::rows::Given;
use keyspace::WINDOW;
use resolver::{Core, MAX_PROXIES, OpenError, Stop};
use std::alloc::Global;
use std::test::Fail;
use stepmap::MAX_LIMIT;
use test_values::{Unmade, batch_of};

/// Opens a core of the default window.
pub fn open(alloc: Global, proxies: usize) -> Result<Result<Core, OpenError>, Unmade> {
    if proxies == 0 || proxies > MAX_PROXIES {
        return Err(Unmade::Beyond("proxies"));
    }
    Ok(Core::new(alloc, proxies, WINDOW, MAX_LIMIT))
}

/// Takes the next answer owed to a proxy that the core knows. Returns whether it is this one, or
/// `None` if none is owed.
pub fn gives(
    core: &mut Core,
    alloc: Global,
    (proxy, text): Given<'_>,
) -> Result<Option<bool>, Unmade> {
    if proxy >= core.proxies() {
        return Err(Unmade::Beyond("proxy"));
    }
    let answer = core.give(proxy);
    is_given(alloc, answer.as_ref(), text)
}

// Admits an empty batch of proxy 0: its previous version and its version.
fn admit(
    core: &mut Core,
    alloc: Global,
    (previous, version): (i64, i64),
) -> Result<Result<(), Stop>, Unmade> {
    if core.proxies() == 0 {
        return Err(Unmade::Beyond("proxy"));
    }
    let batch = batch_of(alloc, previous, version, -1, Vec::new(alloc))?;
    Ok(core.admit(0, batch))
}

// Gives a core its first batch, and then as many as it can hold. Returns whether all were admitted.
fn fill(core: &mut Core, alloc: Global) -> Result<bool, Unmade> {
    let mut is_admitted = admit(core, alloc, (-1, 0))?.is_ok();
    for number in 10..1_034_u32 {
        let previous = i64::from(number);
        is_admitted &= admit(core, alloc, (previous, previous + 1))?.is_ok();
    }
    Ok(is_admitted)
}

// Fills a core and admits a further batch, and finishes if it is refused. Returns whether each call
// answered this and the core says so.
fn fills(
    core: &mut Core,
    alloc: Global,
    further: (i64, i64),
    wanted: Result<(), Stop>,
) -> Result<bool, Unmade> {
    if !fill(core, alloc)? || admit(core, alloc, further)? != wanted {
        return Ok(false);
    }
    if wanted.is_err() && core.finish() != wanted {
        return Ok(false);
    }
    Ok(core.stop() == wanted.err())
}

// Takes all that is owed to proxy 0, and returns whether it is that many replies of version 0.
fn gives_all(core: &mut Core, alloc: Global, count: usize) -> Result<bool, Unmade> {
    for _ in 0..count {
        if gives(core, alloc, (0, "0 empty"))? != Some(true) {
            return Ok(false);
        }
    }
    Ok(core.owed() == 0)
}

// Fills a core of one proxy, admits the further batch, which is answered so, and takes that many
// replies of version 0.
fn plays(
    core: &mut Core,
    alloc: Global,
    further: (i64, i64),
    wanted: Result<(), Stop>,
    count: usize,
) -> Result<bool, Unmade> {
    Ok(fills(core, alloc, further, wanted)? && gives_all(core, alloc, count)?)
}

// Plays this with a new core.
fn at_full_gate(
    alloc: Global,
    further: (i64, i64),
    wanted: Result<(), Stop>,
    count: usize,
) -> Result<bool, Unmade> {
    match open(alloc, 1)? {
        Ok(mut core) => plays(&mut core, alloc, further, wanted, count),
        Err(_refused) => Err(Unmade::Memory),
    }
}

#[test]
fn gate_full(rt: HostRuntime) -> Result<(), Fail> {
    assert!(rt; at_full_gate(rt.alloc(), (2_000, 2_001), Err(Stop::GateFull), 1)?);
    Ok(())
}

#[test]
fn repeat_beside_full_gate(rt: HostRuntime) -> Result<(), Fail> {
    assert!(rt; at_full_gate(rt.alloc(), (-1, 0), Ok(()), 2)?);
    Ok(())
}
