//! What became of the proxies of a stream.

ghost use Rattle.std.specs.Prelude.{◌≡◌, ◌≤◌, ◌<◌, ◌⊎◌, [], ◌∷◌, ◌++◌, true, false, ◌||◌, None};
ghost use Rattle.std.specs.Prelude.{Some, IfOk, vec_len, vec_capacity};
ghost use Rattle.replay_stream.specs.Recorder.{is_refused, is_unwritten, unwritten_cause};

use crate::outlet::Outlet;
use crate::recorder::Recorder;
use crate::sender::Sent;
use replay_output::{AnswerError, ProxyFailure};
use resolver::Client;
use std::alloc::{AllocError, Global};

/// What the senders, the recorders and the outlets have handed back, each at its proxy's number.
#[derive(Drop)]
pub struct Streamed<W> {
    pub clients: Vec<Client>,
    pub failures: Vec<ProxyFailure>,
    /// The recorder, if the proxy has one.
    pub recorders: Vec<Option<Recorder<W>>>,
    /// Whether a record could not be written.
    pub unwritten: Vec<bool>,
    /// Every batch that was read was sent, except those of proxies whose records could not be
    /// written.
    pub all_sent: bool,
    /// Standard output has failed: some lines were not printed.
    pub failed: bool,
    ghost failures_each: { vec_len failures ≡ vec_len clients },
    ghost recorders_each: { vec_len recorders ≡ vec_len clients },
    ghost unwritten_each: { vec_len unwritten ≡ vec_len clients },
    ghost failures_room: { vec_capacity clients ≤ vec_capacity failures },
    ghost recorders_room: { vec_capacity clients ≤ vec_capacity recorders },
    ghost unwritten_room: { vec_capacity clients ≤ vec_capacity unwritten },
}

impl<W: Drop> Streamed<W> {
    /// Creates an empty outcome with room for the results of n proxies.
    pub fn with_room(alloc: Global, proxies: usize) -> Result<Self, AllocError>
        ensures room { IfOk result (λ streamed. proxies ≤ vec_capacity streamed.clients) }
        ensures clients { IfOk result (λ streamed. streamed.clients.items ≡ []) }
        ensures failures { IfOk result (λ streamed. streamed.failures.items ≡ []) }
        ensures recorders { IfOk result (λ streamed. streamed.recorders.items ≡ []) }
        ensures unwritten { IfOk result (λ streamed. streamed.unwritten.items ≡ []) }
        ensures all_sent { IfOk result (λ streamed. streamed.all_sent ≡ true) }
        ensures failed { IfOk result (λ streamed. streamed.failed ≡ false) }
    {
        Ok(Streamed {
            clients: Vec::with_capacity(alloc, proxies)?,
            failures: Vec::with_capacity(alloc, proxies)?,
            recorders: Vec::with_capacity(alloc, proxies)?,
            unwritten: Vec::with_capacity(alloc, proxies)?,
            all_sent: true,
            failed: false,
        })
    }

    /// Appends the result of a proxy. Takes no memory.
    pub fn push(&mut self, sent: Sent, outlet: Outlet, recorder: Option<Recorder<W>>)
        requires room { vec_len self.old.clients < vec_capacity self.old.clients }
        ensures clients { self.new.clients.items ≡ self.old.clients.items
            ++ record { requests = sent.requests; replies = outlet.replies } ∷ [] }
        ensures failures { self.new.failures.items ≡ self.old.failures.items ++ record {
          fault = sent.fault;
          lost = outlet.lost || is_refused (unwritten_cause recorder);
        } ∷ [] }
        ensures recorders { self.new.recorders.items ≡ self.old.recorders.items ++ recorder ∷ [] }
        ensures unwritten { self.new.unwritten.items ≡ self.old.unwritten.items
            ++ is_unwritten (unwritten_cause recorder) ∷ [] }
        ensures all_sent { self.new.all_sent ≡ true → (self.old.all_sent ≡ true)
            × ((sent.unsent ≡ None) ⊎ (unwritten_cause recorder ≡ Some AnswerError.Write)) }
        ensures sends_all { self.old.all_sent ≡ true → sent.unsent ≡ None
            → self.new.all_sent ≡ true }
        ensures failed { self.new.failed ≡ self.old.failed }
        ensures capacity { vec_capacity self.new.clients ≡ vec_capacity self.old.clients }
    {
        let Sent {
            requests,
            fault,
            unsent,
        } = sent;
        let Outlet { replies, lost, .. } = outlet;
        let (refused, unwritten) = failure_of(&recorder);
        self.clients.push_reserved(Client { requests, replies });
        self.failures.push_reserved(ProxyFailure {
            fault,
            lost: lost || refused,
        });
        self.recorders.push_reserved(recorder);
        self.unwritten.push_reserved(unwritten);
        self.all_sent = self.all_sent && (unwritten || unsent.is_none());
    }
}

// Returns whether memory was refused for a record, and whether the writer has failed.
fn failure_of<W>(recorder: &Option<Recorder<W>>) -> (bool, bool)
    ensures refused { result.0 ≡ is_refused (unwritten_cause recorder.now) }
    ensures unwritten { result.1 ≡ is_unwritten (unwritten_cause recorder.now) }
{
    match recorder {
        Some(recorder) => match recorder.failure {
            Some(AnswerError::Memory) => (true, false),
            Some(AnswerError::Write) => (false, true),
            None => (false, false),
        },
        None => (false, false),
    }
}
