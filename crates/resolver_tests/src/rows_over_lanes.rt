//! The worked rows over lanes of one, in turns, whichever growth is refused.

use crate::made::batch_at_last;
use crate::rows::{Call, Given, ROWS, Row};
use crate::service::Service;
use lane::Taken;
use resolver::{Account, Stop, Turn};
use std::alloc::Global;
use std::test::Fail;
use test_values::Unmade;

// The resolver of two proxies that is given the steps of a row.
#[derive(Drop)]
struct RowRun {
    alloc: Global,
    service: Service,
    // The stop that was met.
    stop: Option<Stop>,
    // The steps before it.
    steps: usize,
    // Whether an answer was missing.
    has_missed: bool,
}

// What a row has come to: the stop that was met, if any, or else the index of the step that
// answered otherwise. Lanes that don't end as they should have the index after the last.
type Outcome = Result<Option<Stop>, usize>;

impl RowRun {
    // Turns once, and returns whether it may answer so: it takes a batch of this proxy, or none. Or
    // it meets a stop, and then always that one.
    fn turn(&mut self, from: Option<usize>) -> bool {
        match (self.stop, self.service.turn()) {
            (None, Ok(Turn::Took(proxy))) => from == Some(proxy),
            (None, Ok(Turn::Idle | Turn::Done)) => from.is_none(),
            (None, Err(stop)) => {
                self.stop = Some(stop);
                true
            }
            (Some(stop), Err(again)) => stop == again,
            (Some(_stop), Ok(_turn)) => false,
        }
    }

    // Sends a batch, which its lane accepts, or not after a stop, and has it taken.
    fn send(&mut self, proxy: usize, text: &str) -> Result<bool, Unmade> {
        let is_sent = self.service.send(proxy, batch_at_last(self.alloc, text)?)?;
        Ok((is_sent || self.stop.is_some()) && self.turn(Some(proxy)))
    }

    fn finish(&mut self) -> Result<bool, Unmade> {
        for proxy in 0..2 {
            self.service.close(proxy)?;
        }
        Ok(self.turn(None))
    }

    // Makes the call of a step, whose answers beyond the first of each proxy stay owed.
    fn call(&mut self, call: Call<'_>) -> Result<bool, Unmade> {
        let is_right = match call {
            Call::Admit(proxy, text) => self.send(proxy, text)?,
            Call::Finish => self.finish()?,
        };
        if self.stop.is_none() {
            self.steps = self.steps.saturating_add(1);
        }
        Ok(is_right)
    }

    // Takes an answer of the step at this index, and turns once more, since a lane has room for
    // one. Returns whether it is this answer. It may be missing where its step is the one that met
    // the stop, or a later one, and then none comes any more.
    fn take(&mut self, step: usize, (proxy, text): Given<'_>) -> Result<bool, Unmade> {
        match self.service.takes(self.alloc, proxy, text)? {
            Taken::Item(is_right) => Ok(is_right && !self.has_missed && self.turn(None)),
            Taken::Empty | Taken::End => {
                self.has_missed = true;
                Ok(step >= self.steps)
            }
        }
    }

    fn take_each(&mut self, step: usize, answers: &[Given<'_>]) -> Result<bool, Unmade> {
        for answer in answers {
            if !self.take(step, *answer)? {
                return Ok(false);
            }
        }
        Ok(true)
    }

    // Returns whether both reply lanes have ended, and whether all is settled, unless a stop was
    // met.
    fn has_ended(&mut self) -> Result<bool, Unmade> {
        for proxy in 0..2 {
            if self.service.takes(self.alloc, proxy, "")? != Taken::End {
                return Ok(false);
            }
        }
        let account = Account {
            complete: self.stop.is_none(),
            stop: self.stop,
        };
        Ok(self.service.settle() == account)
    }

    // Makes the calls of the row and then takes the answers. Returns the index of the first step
    // that answered otherwise.
    fn first_wrong(&mut self, row: Row<'_>) -> Result<Option<usize>, Unmade> {
        for (step, (call, _answers)) in row.iter().enumerate() {
            if !self.call(*call)? {
                return Ok(Some(step));
            }
        }
        for (step, (_call, answers)) in row.iter().enumerate() {
            if !self.take_each(step, answers)? {
                return Ok(Some(step));
            }
        }
        Ok(None)
    }

    fn play(&mut self, row: Row<'_>) -> Result<Outcome, Unmade> {
        if let Some(step) = self.first_wrong(row)? {
            return Ok(Err(step));
        }
        if !self.has_ended()? {
            return Ok(Err(row.len()));
        }
        Ok(Ok(self.stop))
    }
}

// Makes the steps of a row over new lanes.
//
// The answers taken are those of the row up to the stop: all of the steps before it, a prefix of
// those of the step that met it, and no other.
fn outcome(alloc: Global, row: Row<'_>) -> Result<Outcome, Unmade> {
    match Service::open(alloc, 2, 1)? {
        Ok(service) => {
            let mut run = RowRun {
                alloc,
                service,
                stop: None,
                steps: 0,
                has_missed: false,
            };
            run.play(row)
        }
        Err(_refused) => Ok(Ok(Some(Stop::Memory))),
    }
}

// A refused growth stops the resolver, with what it answered before still handed out.
#[test]
fn rows_stop_at_one_growth_refused(rt: HostRuntime) -> Result<(), Fail> {
    for row in ROWS {
        let outcome = outcome(rt.alloc(), row)?;
        assert!(rt; matches!(outcome, Ok(None | Some(Stop::Memory))));
    }
    Ok(())
}
