//! The resolver's side of a proxy: takes its batches and sends it the answers.

ghost use Rattle.std.specs.Prelude.{◌≡◌, ◌≢◌, ◌↔◌, ◌⊎◌, ◌<◌, ℕ, false, true, [], ◌∷◌, ◌++◌, length};
ghost use Rattle.std.specs.Prelude.{None, Some, IsSome, IsTrue, IsFalse, IfNone, option_to_list};
ghost use Rattle.lane.specs.Lane.{SameLane, PortContinues};
ghost use Rattle.resolver.specs.Owed.{owed_to};
ghost use Rattle.resolver.specs.Lanes.{IsFull};
ghost use Rattle.resolver.specs.Parts.{TakesFromProxy, Delivers, OwesOnly, SettlesLanes};

use crate::client::Client;
use crate::resolver_core::Core;
use keyspace::{Answer, Batch};
use lane::{Intake, Port, Refused, Taken, agree};
use std::marker::Model;

/// The resolver's ends of the two lanes of a proxy, and a place for the answer that a full reply
/// lane returns.
#[derive(Drop)]
pub struct ProxyLanes {
    requests: Intake<Batch>,
    replies: Port<Answer>,
    ended: bool,
    waiting: Option<Answer>,
}

impl Model for ProxyLanes {
    ghost use Rattle.std.specs.Prelude.{◌≡◌, true};
    ghost use Rattle.lane.specs.Lane.{HasEnded};
    ghost use Rattle.resolver.specs.Parts.{ProxyLanesView};

    ghost Value = { ProxyLanesView };

    ghost view = { λ l. record {
      lanes = record { requests = l.requests; replies = l.replies; ended = l.ended };
      waiting = l.waiting;
    } };

    ghost invariant = { λ l. l.ended ≡ true → HasEnded l.requests };
}

impl ProxyLanes {
    /// Puts the resolver's ends of a proxy's lanes together.
    pub fn new(requests: Intake<Batch>, replies: Port<Answer>) -> Self
        ensures proxy_lanes { result ≡ record {
          lanes
              = record { requests = requests; replies = replies; ended = false };
          waiting = None;
        } }
    {
        ProxyLanes {
            requests,
            replies,
            ended: false,
            waiting: None,
        }
    }

    /// Takes the next batch of the proxy, or returns `None` if there is none to be seen.
    pub fn take(&mut self) -> Option<Batch>
        ensures takes { TakesFromProxy result self.old self.new }
    {
        if self.ended {
            return None;
        }
        match self.requests.take() {
            Taken::Item(batch) => Some(batch),
            Taken::Empty => None,
            Taken::End => {
                self.ended = true;
                None
            }
        }
    }

    /// Returns whether a take has returned the end of the requests.
    pub fn has_ended(&self) -> bool
        ensures ended { result ≡ self.now.lanes.ended }
    {
        self.ended
    }

    /// Returns how many answers were sent to the proxy.
    pub fn sent(&self) -> u64
        ensures count { result ≡ length self.now.lanes.replies.sent }
    {
        self.replies.sent()
    }

    /// Returns whether an answer waits for room on the reply lane.
    pub fn is_waiting(&self) -> bool
        ensures waiting { IsTrue result ↔ IsSome self.now.waiting }
    {
        self.waiting.is_some()
    }

    /// Sends the proxy the answers owed to it, oldest first, while the reply lane accepts them. One
    /// that it returns waits here.
    pub fn deliver(&mut self, core: &mut Core, proxy: usize)
        requires known { proxy < length core.old.owed }
        ensures delivers { Delivers self.old self.new
            (owed_to proxy core.old.owed) (owed_to proxy core.new.owed) }
        ensures core { OwesOnly core.old core.new }
        ensures others { (other : ℕ) → other ≢ proxy
            → owed_to other core.new.owed ≡ owed_to other core.old.owed }
    {
        while let Some(answer) = self.next_answer(core, proxy) {
            if !self.send(answer) {
                return;
            }
        }
    }

    /// Looks at both lanes together with the client's ends, and returns whether the client has
    /// taken every answer sent.
    pub fn settle(&mut self, client: &mut Client) -> bool
        requires requests { SameLane client.old.requests self.old.lanes.requests }
        requires replies { SameLane self.old.lanes.replies client.old.replies }
        ensures settles { SettlesLanes self.old client.old self.new client.new }
        ensures all_taken { IsTrue result
            ↔ (client.old.replies.taken ≡ self.old.lanes.replies.sent) }
    {
        agree(&mut client.requests, &mut self.requests);
        agree(&mut self.replies, &mut client.replies)
    }

    /// Closes the reply lane.
    pub fn close(&mut self)
        ensures closed { self.new ≡ record self.old {
          lanes = record self.old.lanes
              { replies = record self.old.lanes.replies { closed = true } };
        } }
    {
        self.replies.close();
    }

    // Removes and returns the answer that is next in the proxy's line.
    fn next_answer(&mut self, core: &mut Core, proxy: usize) -> Option<Answer>
        requires known { proxy < length core.old.owed }
        ensures next { option_to_list self.old.waiting ++ owed_to proxy core.old.owed
            ≡ option_to_list result ++ owed_to proxy core.new.owed }
        ensures none { IfNone result (owed_to proxy core.new.owed ≡ []) }
        ensures waiting { self.new ≡ record self.old { waiting = None } }
        ensures core { OwesOnly core.old core.new }
        ensures others { (other : ℕ) → other ≢ proxy
            → owed_to other core.new.owed ≡ owed_to other core.old.owed }
    {
        match self.waiting.take() {
            Some(answer) => Some(answer),
            None => core.give(proxy),
        }
    }

    // Sends an answer, and returns whether the reply lane has accepted it. If not, the answer
    // waits.
    fn send(&mut self, answer: Answer) -> bool
        requires nothing_waits { self.old.waiting ≡ None }
        ensures sent { IsTrue result → (self.new.lanes.replies.sent
            ≡ self.old.lanes.replies.sent ++ answer ∷ [])
            × (self.new.waiting ≡ None) }
        ensures waits { IsFalse result → (self.new.lanes.replies.sent ≡ self.old.lanes.replies.sent)
            × (self.new.waiting ≡ Some answer) }
        ensures full { IsFalse result → (self.new.lanes.replies.closed ≡ true)
            ⊎ IsFull self.old.lanes self.new.lanes }
        ensures replies { PortContinues self.old.lanes.replies self.new.lanes.replies }
        ensures closed { self.new.lanes.replies.closed ≡ self.old.lanes.replies.closed }
        ensures requests { self.new.lanes
            ≡ record self.old.lanes { replies = self.new.lanes.replies } }
    {
        match self.replies.send(answer) {
            Ok(()) => true,
            Err(Refused::Full(answer) | Refused::Closed(answer) | Refused::Worn(answer)) => {
                self.waiting = Some(answer);
                false
            }
        }
    }
}
