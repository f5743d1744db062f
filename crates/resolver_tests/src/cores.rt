//! The worked rows over a core, whatever memory is refused.

use crate::gate::{gives, open};
use crate::made::batch_at_last;
use crate::rows::{
    Call, Given, HELD_OVERTAKEN, HELD_REPEAT_ANSWERED_TWICE, LEAST_PREVIOUS_LEAVES_FIRST,
    REPEAT_BY_ANOTHER_PROXY, ROWS, Row,
};
use resolver::{Core, Stop};
use std::alloc::Global;
use std::process::Abort;
use std::test::Fail;
use test_values::Unmade;

// A core that is given the steps of a row.
#[derive(Drop)]
struct CoreRun {
    alloc: Global,
    core: Core,
    // The stop that was met.
    stop: Option<Stop>,
    // The steps before it.
    steps: usize,
    // The answers that were made.
    made: usize,
}

// What a row has come to: the stop that was met, if any, or else the index of the step that
// answered otherwise. An answer that no step makes has the index after the last.
type Outcome = Result<Option<Stop>, usize>;

impl CoreRun {
    fn call(&mut self, call: Call<'_>) -> Result<Result<(), Stop>, Unmade> {
        let Call::Admit(proxy, text) = call else {
            return Ok(self.core.finish());
        };
        if proxy >= self.core.proxies() {
            return Err(Unmade::Beyond("proxy"));
        }
        Ok(self.core.admit(proxy, batch_at_last(self.alloc, text)?))
    }

    // Returns whether a call that makes n answers may return this. Once a stop was met it is the
    // same, and no answer is made.
    fn looks_right(&mut self, returned: Result<(), Stop>, answers: usize) -> bool {
        let before = self.made;
        let most = before.saturating_add(answers);
        self.made = self.core.owed();
        match (self.stop, returned) {
            (Some(stop), Err(again)) => stop == again && self.made == before,
            (Some(_stop), Ok(())) => false,
            (None, Ok(())) => {
                self.steps = self.steps.saturating_add(1);
                self.made == most
            }
            (None, Err(stop)) => {
                self.stop = Some(stop);
                before <= self.made && self.made <= most
            }
        }
    }

    // Takes the answers of a step, and returns whether they are these. One may be missing where its
    // step is the one that met the stop, or a later one.
    fn gives_all(&mut self, step: usize, answers: &[Given<'_>]) -> Result<bool, Unmade> {
        for answer in answers {
            if !gives(&mut self.core, self.alloc, *answer)?.unwrap_or(step >= self.steps) {
                return Ok(false);
            }
        }
        Ok(true)
    }

    // Makes the calls of the row, and then takes the answers. Returns the index of the first step
    // that answered otherwise.
    fn first_wrong(&mut self, row: Row<'_>) -> Result<Option<usize>, Unmade> {
        for (step, (call, answers)) in row.iter().enumerate() {
            let returned = self.call(*call)?;
            if !self.looks_right(returned, answers.len()) {
                return Ok(Some(step));
            }
        }
        for (step, (_call, answers)) in row.iter().enumerate() {
            if !self.gives_all(step, answers)? {
                return Ok(Some(step));
            }
        }
        Ok(None)
    }

    fn play(&mut self, row: Row<'_>) -> Result<Outcome, Unmade> {
        if let Some(step) = self.first_wrong(row)? {
            return Ok(Err(step));
        }
        if self.core.owed() > 0 {
            return Ok(Err(row.len()));
        }
        Ok(Ok(self.stop))
    }
}

// Runs a row over a core of n proxies.
//
// The answers given are those of the row up to the stop: all of the steps before it, a prefix of
// those of the step that met it, and no other.
fn outcome(alloc: Global, proxies: usize, row: Row<'_>) -> Result<Outcome, Unmade> {
    match open(alloc, proxies)? {
        Ok(core) => {
            let mut run = CoreRun {
                alloc,
                core,
                stop: None,
                steps: 0,
                made: 0,
            };
            run.play(row)
        }
        Err(_refused) => Ok(Ok(Some(Stop::Memory))),
    }
}

// Runs a row that meets no stop. A core that answers `Memory` to every call fails here, too.
fn goes_through(rt: &impl Abort, alloc: Global, proxies: usize, row: Row<'_>) -> Result<(), Fail> {
    assert_eq!(rt; outcome(alloc, proxies, row)?, Ok(None));
    Ok(())
}

#[test]
fn repeat_by_another_proxy(rt: HostRuntime) -> Result<(), Fail> {
    goes_through(&rt, rt.alloc(), 2, REPEAT_BY_ANOTHER_PROXY)
}

#[test]
fn held_repeat_answered_twice(rt: HostRuntime) -> Result<(), Fail> {
    goes_through(&rt, rt.alloc(), 1, HELD_REPEAT_ANSWERED_TWICE)
}

#[test]
fn held_overtaken(rt: HostRuntime) -> Result<(), Fail> {
    goes_through(&rt, rt.alloc(), 1, HELD_OVERTAKEN)
}

#[test]
fn least_previous_leaves_first(rt: HostRuntime) -> Result<(), Fail> {
    goes_through(&rt, rt.alloc(), 2, LEAST_PREVIOUS_LEAVES_FIRST)
}

// A refused growth stops the core, with what it answered before still owed.
#[test]
fn core_stops_at_one_growth_refused(rt: HostRuntime) -> Result<(), Fail> {
    for row in ROWS {
        let outcome = outcome(rt.alloc(), 2, row)?;
        assert!(rt; matches!(outcome, Ok(None | Some(Stop::Memory))));
    }
    Ok(())
}
