//! The resolver over values, which stops for good at the first refusal.

ghost use Rattle.std.specs.Prelude.{◌≡◌, ◌≢◌, ◌<◌, ◌≤◌, ◌≤ℤ◌, ◌↔◌, pos, negsuc, List, []};
ghost use Rattle.std.specs.Prelude.{◌∷◌, ◌++◌, length};
ghost use Rattle.std.specs.Prelude.{Some, None, Err};
ghost use Rattle.std.specs.Prelude.{◌+◌, ◌^◌, IfOk, IfErr, IfSome, IsTrue, option_to_list};
ghost use Rattle.limits.specs.declared.settings.TheConstants.{MAX_PROXIES};
ghost use Rattle.keyspace.specs.Run.{Step, Take, Finish, run};
ghost use Rattle.resolver.specs.Owed.{owed_to, given_oldest, owed_count};
ghost use Rattle.resolver.specs.Core.{Given, IsCore};
ghost use Rattle.resolver.specs.Stands.{Stands, given_also};
ghost use Rattle.resolver.specs.CoreCalls.{AreSettings, IsNewCore, AddsStep, Admits};
ghost use Rattle.resolver.specs.Observed.{HasSeen};
ghost use Rattle.resolver.specs.OpeningLog.{opening_log};

mod core_answers;
mod opened;

use crate::open_error::OpenError;
use crate::owed::Owed;
use chain::{Gate, Replies};
use conflict::ConflictSet;
use keyspace::{Answer, Batch};
use limits::Stop;
use observer::{Observer, Unobserved};
use opened::answers_at;
use std::alloc::Global;
use std::marker::Model;

/// The resolver over values: `Resolver` of FoundationDB 7.1, without its network. It takes batches
/// one by one, and owes each proxy the answers of the reference resolver.
#[derive(Debug, Drop)]
pub struct Core {
    alloc: Global,
    set: ConflictSet,
    // that of the batch processed last, or -1
    version: i64,
    // the batches that wait for their previous version
    gate: Gate,
    // those that may be asked for again
    replies: Replies,
    owed: Owed,
    // why it takes no more
    stop: Option<Stop>,
}

impl Model for Core {
    ghost use Rattle.std.specs.Coded.{codes};
    ghost use Rattle.chain.specs.contracts.replies.Replies as replies_type;
    ghost use Rattle.resolver.specs.Core.{CoreState, IsCore, core_of};

    ghost Value = { CoreState };

    ghost coded = { Prim.hlevel (codes, replies_type.the_row.coded) };

    ghost view = { λ c. core_of c.set c.version c.gate c.replies c.owed c.stop };

    ghost invariant = { λ c. IsCore (core_of c.set c.version c.gate c.replies c.owed c.stop) };
}

impl Core {
    /// Creates a resolver for this number of proxies, which has taken nothing. `window` is how far
    /// back it remembers writes, in versions; its conflict set never keeps more boundaries than
    /// `limit`.
    pub fn new(alloc: Global, proxies: usize, window: i64, limit: usize) -> Result<Self, OpenError>
        requires settings { AreSettings proxies window limit }
        ensures new { IfOk result (IsNewCore proxies window limit []) }
    {
        match Core::new_at(alloc, proxies, window, limit, -1) {
            Ok(core) => Ok(core),
            Err(_) => Err(OpenError::Memory),
        }
    }

    /// Creates a resolver that starts at a version, from -1 on: the first batch that it processes
    /// follows that version, and what was written up to it isn't known. Each read range with a
    /// snapshot below the version is in conflict, unless it is empty. The resolver answers `Never`
    /// to batches whose previous version is below it. At -1 this is [`Core::new`].
    ///
    /// Contracts see it as a resolver that has processed one batch already, which wrote every key
    /// at the version and which none of the proxies sent. Returns `ArenaFull` if the limit is below
    /// 3 and the version isn't -1, or `Memory` if memory is refused.
    pub fn new_at(
        alloc: Global,
        proxies: usize,
        window: i64,
        limit: usize,
        version: i64,
    ) -> Result<Self, Stop>
        requires settings { AreSettings proxies window limit }
        requires least_version { negsuc 0 ≤ℤ version }
        ensures new { IfOk result (IsNewCore proxies window limit (opening_log proxies version)) }
        ensures full { (result ≡ Err Stop.ArenaFull) ↔ (pos 0 ≤ℤ version) × (limit < 3) }
        ensures not_gate { result ≢ Err Stop.GateFull }
    {
        let set = ConflictSet::new_at(alloc, window, limit, version)?;
        let Ok((replies, owed)) = answers_at(alloc, proxies, version) else {
            return Err(Stop::Memory);
        };
        Ok(Core {
            alloc,
            set,
            version,
            gate: Gate::new(alloc),
            replies,
            owed,
            stop: None,
        })
    }

    /// Takes a batch of a proxy. The batch is held, or it and the batches that it frees are
    /// answered.
    ///
    /// An error is final: every later call of this and of [`finish`](Self::finish) returns the same
    /// one and changes nothing. The batch that met it counts as taken, and the answers made before
    /// it are still delivered.
    pub fn admit(&mut self, proxy: usize, batch: Batch) -> Result<(), Stop>
        requires known { proxy < length self.old.owed }
        ensures admits { Admits result proxy batch self.old self.new }
    {
        self.admit_observed(&mut Unobserved, proxy, batch)
    }

    /// Takes a batch as [`admit`](Self::admit) does, and shows the observer each batch that is
    /// processed: this one if its turn has come, and the held ones that follow, in that order.
    ///
    /// The observer sees a batch once its reply is kept, and before its answer is owed. It sees no
    /// batch that is held, and no repeat. If the observer is refused memory, the core stops with
    /// `Memory`, and that batch gets no answer. An error says that it has seen a prefix of the
    /// batches that this call was to process. After a stop it sees nothing.
    ///
    /// No observer is shown the opening batch of a core that starts at a version
    /// ([`new_at`](Self::new_at)), which counts as processed in `seen`.
    pub fn admit_observed<O: Observer>(
        &mut self,
        observer: &mut O,
        proxy: usize,
        batch: Batch,
    ) -> Result<(), Stop>
        requires known { proxy < length self.old.owed }
        ensures admits { Admits result proxy batch self.old self.new }
        ensures seen { self.old.stop ≡ None → (log : List Step) (given : Given)
            → Stands self.old log given
            → O.has_seen observer.old (run self.old.set.window log).processed
            → HasSeen (O.has_seen observer.new) self.new.stop self.old.set.window
            (log ++ Take proxy batch ∷ []) }
        ensures unseen { IfSome self.old.stop (λ _. observer.new ≡ observer.old) }
        ensures setting { O.setting observer.new ≡ O.setting observer.old }
    {
        if let Some(stop) = self.stop {
            return Err(stop);
        }
        let taken = self.take(observer, proxy, batch);
        if let Err(stop) = taken {
            self.stop = Some(stop);
        }
        taken
    }

    /// Answers every batch that is still held, in order of arrival.
    ///
    /// An error is final, as that of [`admit`](Self::admit) is.
    pub fn finish(&mut self) -> Result<(), Stop>
        ensures adds { AddsStep Finish result self.old self.new }
        ensures memory { self.old.stop ≡ None → IfErr result (λ stop. stop ≡ Stop.Memory) }
    {
        if let Some(stop) = self.stop {
            return Err(stop);
        }
        let finished = self.answer_held();
        if let Err(stop) = finished {
            self.stop = Some(stop);
        }
        finished
    }

    /// Removes and returns the oldest answer owed to the proxy, or returns `None` if none is owed.
    /// After an error too.
    pub fn give(&mut self, proxy: usize) -> Option<Answer>
        requires known { proxy < length self.old.owed }
        ensures oldest { owed_to proxy self.old.owed
            ≡ option_to_list result ++ owed_to proxy self.new.owed }
        ensures others { self.new ≡ record self.old { owed = given_oldest proxy self.old.owed } }
        ensures stands { (log : List Step) (given : Given) → Stands self.old log given
            → Stands self.new log (given_also proxy result given) }
    {
        self.owed.pop(proxy)
    }

    /// Returns the number of answers owed to all proxies.
    pub fn owed(&self) -> usize
        ensures count { result ≡ owed_count self.now.owed }
        ensures few { result + MAX_PROXIES < 2 ^ 64 }
    {
        self.owed.count()
    }

    /// Returns `true` if an answer is owed to the proxy.
    pub fn owes(&self, proxy: usize) -> bool
        requires known { proxy < length self.now.owed }
        ensures owes { IsTrue result ↔ (0 < length (owed_to proxy self.now.owed)) }
    {
        self.owed.owes(proxy)
    }

    /// Returns the number of batches that wait for their previous version.
    pub fn held(&self) -> usize
        ensures count { result ≡ length self.now.held }
    {
        self.gate.held()
    }

    /// Returns the version of the batch processed last, or that at which the resolver started.
    pub fn version(&self) -> i64
        ensures version { result ≡ self.now.version }
    {
        self.version
    }

    /// Returns the conflict set.
    pub fn set(&self) -> &ConflictSet
        ensures set { result.now ≡ self.now.set }
        ensures core { IsCore self.now }
    {
        &self.set
    }

    /// Returns the number of proxies.
    pub fn proxies(&self) -> usize
        ensures count { result ≡ length self.now.owed }
    {
        self.owed.proxies()
    }

    /// Returns the stop that was met, if any.
    pub fn stop(&self) -> Option<Stop>
        ensures stop { result ≡ self.now.stop }
    {
        self.stop
    }
}
