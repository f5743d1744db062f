//! The result of a run.

ghost use Rattle.std.specs.Prelude.{◌≡◌, ◌≤◌, ◌<◌, [], ◌∷◌, ◌++◌, true, vec_len, vec_capacity};
ghost use Rattle.std.specs.Prelude.{IfOk};

use crate::worker::Finished;
use replay_output::{Line, ProxyFailure};
use replay_summary::Occupancy;
use resolver::Client;
use std::alloc::{AllocError, Global};

/// What the workers have returned, each at its proxy's number, and how full the resolver was.
#[derive(Drop)]
pub struct RunOutcome {
    pub clients: Vec<Client>,
    /// The lines of the answers to each proxy, in the order taken.
    pub lines: Vec<Vec<Line>>,
    pub failures: Vec<ProxyFailure>,
    /// Each worker has sent every batch that it read.
    pub all_sent: bool,
    /// How full the resolver was. After a stop, before the step that met it.
    pub occupancy: Occupancy,
    ghost lines_each: { vec_len lines ≡ vec_len clients },
    ghost failures_each: { vec_len failures ≡ vec_len clients },
    ghost lines_room: { vec_capacity clients ≤ vec_capacity lines },
    ghost failures_room: { vec_capacity clients ≤ vec_capacity failures },
}

impl RunOutcome {
    /// Creates an empty outcome with room for the results of n workers.
    pub fn with_room(alloc: Global, workers: usize) -> Result<Self, AllocError>
        ensures room { IfOk result (λ outcome. workers ≤ vec_capacity outcome.clients) }
        ensures clients { IfOk result (λ outcome. outcome.clients.items ≡ []) }
        ensures lines { IfOk result (λ outcome. outcome.lines.items ≡ []) }
        ensures failures { IfOk result (λ outcome. outcome.failures.items ≡ []) }
        ensures all_sent { IfOk result (λ outcome. outcome.all_sent ≡ true) }
    {
        Ok(RunOutcome {
            clients: Vec::with_capacity(alloc, workers)?,
            lines: Vec::with_capacity(alloc, workers)?,
            failures: Vec::with_capacity(alloc, workers)?,
            all_sent: true,
            occupancy: Occupancy::new(1),
        })
    }

    /// Appends the result of a worker. Takes no memory.
    pub fn push(&mut self, finished: Finished)
        requires room { vec_len self.old.clients < vec_capacity self.old.clients }
        ensures clients { self.new.clients.items ≡ self.old.clients.items ++ finished.client ∷ [] }
        ensures lines { self.new.lines.items ≡ self.old.lines.items ++ finished.lines ∷ [] }
        ensures failures { self.new.failures.items ≡ self.old.failures.items
            ++ record { fault = finished.fault; lost = finished.lost } ∷ [] }
        ensures all_sent { self.new.all_sent ≡ true → (self.old.all_sent ≡ true)
            × (finished.unsent ≡ None) }
        ensures sends_all { self.old.all_sent ≡ true → finished.unsent ≡ None
            → self.new.all_sent ≡ true }
        ensures capacity { vec_capacity self.new.clients ≡ vec_capacity self.old.clients }
    {
        let Finished {
            client,
            lines,
            fault,
            lost,
            unsent,
            ..
        } = finished;
        self.clients.push_reserved(client);
        self.lines.push_reserved(lines);
        self.failures.push_reserved(ProxyFailure { fault, lost });
        self.all_sent = self.all_sent && unsent.is_none();
    }
}
