//! The resolver over lanes: each turn takes a batch of some proxy, and sends answers.

ghost use Rattle.std.specs.Prelude.{◌≡◌, ℕ, ℤ, ◌<◌, ◌≤◌, ◌+◌, ◌↔◌, true, false};
ghost use Rattle.std.specs.Prelude.{List, [], ◌∷◌, length, All, Some, None, Ok};
ghost use Rattle.std.specs.Prelude.{IfSome, slice_get};
ghost use Rattle.keyspace.specs.Run.{Step, Take, Finish};
ghost use Rattle.lane.specs.Lane.{HasEnded};
ghost use Rattle.resolver.specs.declared.client.Client.{Client as ClientEnds};
ghost use Rattle.resolver.specs.Owed.{owed_count};
ghost use Rattle.stepmap.specs.StepMap.{AreSteps};
ghost use Rattle.resolver.specs.Core.{RemembersWindow};
ghost use Rattle.resolver.specs.Stands.{Stands};
ghost use Rattle.resolver.specs.OpeningLog.{opening_log};
ghost use Rattle.resolver.specs.Parts.{AreNewLanes, lanes_of};
ghost use Rattle.limits.specs.declared.settings.TheConstants.{MAX_PROXIES};
ghost use Rattle.resolver.specs.Lanes.{Each, LanesContinue};
ghost use Rattle.resolver.specs.Lanes.{AreSameLists, sent_to};
ghost use Rattle.resolver.specs.Resolver.{ResolverState, StandsOverFrom, IsResolvingFrom};
ghost use Rattle.resolver.specs.Resolver.{TakesFrom, Finishes, TakesNoStep};
ghost use Rattle.resolver.specs.Resolver.{AreClients, SameClients};
ghost use Rattle.resolver.specs.Observed.{Observes};
ghost use Rattle.resolver.specs.Turns.{Turns};
ghost use Rattle.resolver.specs.Settled.{SettledFrom, IsComplete};

mod turn_steps;

use crate::all_lanes;
use crate::client::Client;
use crate::proxy_lanes::ProxyLanes;
use crate::resolver_core::Core;
use crate::turn::{Account, Turn};
use keyspace::laws;
use limits::Stop;
use observer::{Observer, Unobserved};
use std::marker::Model;

/// The resolver over lanes: takes the batches of its clients, and sends them the answers of the
/// reference resolver.
#[derive(Drop)]
pub struct Resolver {
    core: Core,
    all_lanes: Vec<ProxyLanes>,
    // the next turn looks for a batch from this pair of lanes on
    next: usize,
    // all request lanes have ended, and the core was finished
    finished: bool,
    // the reply lanes are closed
    closed: bool,
}

impl Model for Resolver {
    ghost use Rattle.std.specs.Coded.{codes};
    ghost use Rattle.resolver.specs.contracts.resolver_core.Core as core_type;
    ghost use Rattle.resolver.specs.Resolver.{ResolverState};
    ghost use Rattle.resolver.specs.Parts.{resolver_of, AreParts};

    ghost Value = { ResolverState };

    ghost coded = { Prim.hlevel (codes, core_type.the_row.coded) };

    ghost view = { λ r. resolver_of record {
      core = r.core;
      all_lanes = r.all_lanes.items;
      next = r.next;
      finished = r.finished;
      closed = r.closed;
    } };

    ghost invariant = { λ r. AreParts record {
      core = r.core;
      all_lanes = r.all_lanes.items;
      next = r.next;
      finished = r.finished;
      closed = r.closed;
    } };
}

impl Resolver {
    // Puts a resolver together whose lanes are new. It starts where its core does.
    pub(crate) fn new(core: Core, all_lanes: Vec<ProxyLanes>) -> Self
        requires no_stop { core.stop ≡ None }
        requires all_lanes { All AreNewLanes all_lanes.items }
        requires count { length all_lanes.items ≡ length core.owed }
        requires some { 1 ≤ length all_lanes.items }
        requires few { length all_lanes.items ≤ MAX_PROXIES }
        ensures stands { (version : ℤ)
            → Stands core (opening_log (length core.owed) version) (λ _. [])
            → StandsOverFrom version result [] }
        ensures core { result.core ≡ core }
        ensures lanes { result.lanes ≡ lanes_of all_lanes.items }
        ensures next { result.next ≡ 0 }
    {
        Resolver {
            core,
            all_lanes,
            next: 0,
            finished: false,
            closed: false,
        }
    }

    /// Takes a batch of some proxy, if it sees one, and sends answers.
    ///
    /// It looks at each request lane that hasn't ended at most once, from the one after the lane
    /// last taken from on. Once all have ended, it answers what is still held. Then it sends owed
    /// answers, while the reply lanes accept them. If nothing is owed and no answer is still to
    /// come, it closes the reply lanes.
    ///
    /// An error is final: this and every later turn take no more, send the answers that the reply
    /// lanes accept, and return the same one.
    ///
    /// `GateFull` first comes only if some proxy has more batches taken and unanswered than its
    /// [`share`](crate::share). So it never comes if no client has more than its share of batches
    /// sent and unanswered.
    pub fn turn(&mut self) -> Result<Turn, Stop>
        ensures turns { Turns result self.old self.new }
    {
        self.turn_observed(&mut Unobserved)
    }

    /// Takes a turn as [`turn`](Self::turn) does, and shows the observer each batch that is
    /// processed, as [`Core::admit_observed`] does. If the observer is refused memory, the resolver
    /// stops with `Memory`.
    pub fn turn_observed<O: Observer>(&mut self, observer: &mut O) -> Result<Turn, Stop>
        ensures turns { Turns result self.old self.new }
        // What the observer has seen follows the log, whichever step was added to it.
        ensures sees_taken { (proxy : ℕ) (took : TakesFrom proxy self.old self.new)
            → Observes (O.has_seen observer.old) (O.has_seen observer.new) self.old self.new
            (Take proxy took.batch ∷ []) }
        ensures sees_finish { Finishes self.old self.new
            → Observes (O.has_seen observer.old) (O.has_seen observer.new) self.old self.new
            (Finish ∷ []) }
        ensures sees_nothing { TakesNoStep self.old self.new
            → Observes (O.has_seen observer.old) (O.has_seen observer.new) self.old self.new [] }
        ensures unseen { IfSome self.old.core.stop (λ _. observer.new ≡ observer.old) }
        ensures setting { O.setting observer.new ≡ O.setting observer.old }
    {
        let stepped = self.step(observer);
        self.deliver();
        self.close();
        Ok(match stepped? {
            Some(proxy) => Turn::Took(proxy),
            None if self.closed => Turn::Done,
            None => Turn::Idle,
        })
    }

    /// Finds what was reached, once all clients of this resolver have been returned, each at its
    /// number. It takes no memory, and no batch or answer moves.
    pub fn settle(&mut self, clients: &mut [Client]) -> Account
        requires clients { AreClients self.old.lanes clients.old }
        ensures settled { (version : ℤ) (log : List Step) → StandsOverFrom version self.old log
            → SettledFrom version self.old.core.set.window log self.old.lanes clients.old result }
        ensures settled_for_some { (version : ℤ) → IsResolvingFrom version self.old
            → (log : List Step)
            × SettledFrom version self.old.core.set.window log self.old.lanes clients.old result }
        ensures stands { (version : ℤ) (log : List Step) → StandsOverFrom version self.old log
            → StandsOverFrom version self.new log }
        ensures complete { (result.complete ≡ true) ↔ IsComplete self.old clients.old }
        // A client that has taken answers to their end has taken all that were sent.
        ensures ended { (proxy : ℕ) (client : ClientEnds)
            → slice_get clients.old proxy ≡ Some client
            → HasEnded client.replies → client.replies.taken ≡ sent_to self.old.lanes proxy }
        ensures stop { result.stop ≡ self.old.core.stop }
        ensures core { self.new.core ≡ self.old.core }
        ensures next { self.new.next ≡ self.old.next }
        ensures lanes { Each (λ _ l m. LanesContinue l m
            × AreSameLists l m) self.old.lanes self.new.lanes }
        ensures clients { SameClients clients.old clients.new }
    {
        laws::runs_are_chains();
        laws::each_batch_is_answered();
        serial::laws::chains_are_serializable();
        serial::laws::answers_report_verdicts();
        let all_taken = all_lanes::settle(&mut self.all_lanes, clients);
        Account::new(self.core.stop(), self.closed, all_taken)
    }

    /// Returns the number of answers owed to all proxies.
    pub fn owed(&self) -> usize
        ensures count { result ≡ owed_count self.now.core.owed }
    {
        self.core.owed() + all_lanes::waiting(&self.all_lanes)
    }

    /// Returns the number of batches that wait for their previous version.
    pub fn held(&self) -> usize
        ensures count { result ≡ length self.now.core.held }
    {
        self.core.held()
    }

    /// Returns the number of boundaries of the conflict set, that at the empty key included. It
    /// never exceeds the limit.
    pub fn boundaries(&self) -> usize
        ensures count { result ≡ length self.now.core.set.map.boundaries }
        ensures within { result ≤ self.now.core.set.map.limit }
        ensures steps { AreSteps self.now.core.set.map }
        ensures window { RemembersWindow self.now.core }
    {
        self.core.set().boundaries()
    }

    /// Returns how many answers were sent to the proxy, or 0 if there is no such proxy.
    pub fn sent(&self, proxy: usize) -> u64
        ensures count { result ≡ length (sent_to self.now.lanes proxy) }
    {
        match self.all_lanes.get(proxy) {
            Some(proxy_lanes) => proxy_lanes.sent(),
            None => 0,
        }
    }
}
