//! How a core answers: it holds a batch, judges it or finds the reply of a repeat, and so for all
//! that leave.

ghost use Rattle.std.specs.Prelude.{◌≡◌, ◌≢◌, ℕ, ℤ, ◌<◌, ◌≤ℤ◌, ◌<ℤ◌, ◌↔◌, length, Some, None};
ghost use Rattle.std.specs.Prelude.{Err, OnOk, OnErr, IfOk, IfErr};
ghost use Rattle.keyspace.specs.Found.{found, reply_or_never};
ghost use Rattle.keyspace.specs.Run.{State, Take, Finish, answer, process, leave_all, step};
ghost use Rattle.keyspace.specs.Run as reference;
ghost use Rattle.chain.specs.declared.gate.TheConstants.{MAX_HELD};
ghost use Rattle.chain.specs.Replies.{reply_of};
ghost use Rattle.resolver.specs.Core.{Given, IsIn, StopsAsTheyLeave, StopsAtLimit, kept_also};
ghost use Rattle.resolver.specs.CoreCalls.{Advances, AdvancesByOne, Answers, Shows, ShowsOne};

use super::Core;
use chain::Replies;
use keyspace::{Answer, Batch, Reply, laws};
use limits::Stop;
use observer::Observer;
use std::alloc::Global;

impl Core {
    /// Takes a batch of a proxy: holds it or answers it, and then answers all held batches that
    /// leave. The observer sees each batch that is processed.
    pub(super) fn take<O: Observer>(
        &mut self,
        observer: &mut O,
        proxy: usize,
        batch: Batch,
    ) -> Result<(), Stop>
        requires known { proxy < length self.old.owed }
        requires open { self.old.stop ≡ None }
        ensures advances { Advances (step self.old.set.window (Take proxy batch)) result self.old
            self.new }
        ensures shows { Shows (step self.old.set.window (Take proxy batch)) result self.old
            (O.has_seen observer.old) (O.has_seen observer.new) }
        ensures open { OnOk result (self.new.stop ≡ None) }
        ensures gate_full { (result ≡ Err Stop.GateFull)
            ↔ (self.old.version <ℤ batch.previous) × (length self.old.held ≡ MAX_HELD) }
        ensures arena_full { result ≡ Err Stop.ArenaFull → (state : State) (given : Given)
            → IsIn state given self.old
            → StopsAtLimit self.old.set.map.limit self.old.set.window proxy batch state given
            self.new }
        ensures setting { O.setting observer.new ≡ O.setting observer.old }
    {
        if batch.previous > self.version {
            self.hold(proxy, batch)?;
        } else {
            self.answer(observer, proxy, batch)?;
        }
        self.release(observer)
    }

    /// Answers every held batch `Held`, in order of arrival.
    pub(super) fn answer_held(&mut self) -> Result<(), Stop>
        ensures advances { Advances (step self.old.set.window Finish) result self.old self.new }
        ensures memory { IfErr result (λ stop. stop ≡ Stop.Memory) }
        ensures set { self.new.set ≡ self.old.set }
        ensures stop { self.new.stop ≡ self.old.stop }
    {
        while let Some((proxy, batch)) = self.gate.first() {
            self.owed.reserve(proxy)?;
            self.owed.push(proxy, Answer::Held(batch.version));
        }
        Ok(())
    }

    // Holds a batch whose previous version is still to come.
    fn hold(&mut self, proxy: usize, batch: Batch) -> Result<(), Stop>
        requires known { proxy < length self.old.owed }
        requires ahead { self.old.version <ℤ batch.previous }
        ensures advances { AdvancesByOne (reference.admit self.old.set.window proxy batch) result
            self.old self.new }
        ensures full { (result ≡ Err Stop.GateFull) ↔ (length self.old.held ≡ MAX_HELD) }
        ensures not_arena { result ≢ Err Stop.ArenaFull }
        ensures set { self.new.set ≡ self.old.set }
        ensures stop { self.new.stop ≡ self.old.stop }
    {
        match self.gate.hold(proxy, batch) {
            Ok(()) => Ok(()),
            Err((refused, _)) => Err(refused.into()),
        }
    }

    // Answers a batch whose previous version isn't still to come.
    fn answer<O: Observer>(
        &mut self,
        observer: &mut O,
        proxy: usize,
        batch: Batch,
    ) -> Result<(), Stop>
        requires known { proxy < length self.old.owed }
        requires open { self.old.stop ≡ None }
        requires due { batch.previous ≤ℤ self.old.version }
        ensures answers { Answers (reference.admit self.old.set.window proxy batch) proxy batch
            result self.old self.new }
        ensures shows { ShowsOne (reference.admit self.old.set.window proxy batch) result self.old
            (O.has_seen observer.old) (O.has_seen observer.new) }
        ensures setting { O.setting observer.new ≡ O.setting observer.old }
    {
        if batch.previous < self.version {
            self.repeat(proxy, batch.version)
        } else {
            self.process(observer, proxy, batch)
        }
    }

    // Answers a repeat with the reply that is kept of the proxy for the version, or with `Never`.
    fn repeat(&mut self, proxy: usize, version: i64) -> Result<(), Stop>
        requires known { proxy < length self.old.owed }
        ensures advances { AdvancesByOne (λ state. answer proxy
            (found state.processed proxy version) state) result self.old self.new }
        ensures others { self.new ≡ record self.old { owed = self.new.owed } }
        ensures memory { IfErr result (λ stop. stop ≡ Stop.Memory) }
    {
        self.owed.reserve(proxy)?;
        let answer = find(self.alloc, &self.replies, proxy, version)?;
        self.owed.push(proxy, answer);
        Ok(())
    }

    // Judges a batch whose previous version is the version, keeps its reply for a repeat, and
    // answers with it. The observer sees it before the answer is owed. The core stops where its
    // conflict set does.
    fn process<O: Observer>(
        &mut self,
        observer: &mut O,
        proxy: usize,
        batch: Batch,
    ) -> Result<(), Stop>
        requires known { proxy < length self.old.owed }
        requires open { self.old.stop ≡ None }
        requires next { batch.previous ≡ self.old.version }
        ensures answers { Answers (process self.old.set.window proxy batch) proxy batch result
            self.old self.new }
        ensures shows { ShowsOne (process self.old.set.window proxy batch) result self.old
            (O.has_seen observer.old) (O.has_seen observer.new) }
        ensures setting { O.setting observer.new ≡ O.setting observer.old }
    {
        laws::one_reply();
        self.owed.reserve(proxy)?;
        let reply = match self.set.resolve(&batch) {
            Ok(reply) => reply,
            Err(stop) => {
                let stop = Stop::from(stop);
                self.stop = Some(stop);
                return Err(stop);
            }
        };
        self.version = batch.version;
        keep(self.alloc, &mut self.replies, proxy, batch.received, &reply)?;
        observer.see(proxy, batch, &reply)?;
        self.owed.push(proxy, Answer::Reply(reply));
        Ok(())
    }

    // Answers the held batches that leave at the version, one at a time, and so on as the version
    // rises.
    fn release<O: Observer>(&mut self, observer: &mut O) -> Result<(), Stop>
        requires open { self.old.stop ≡ None }
        ensures advances { Advances (leave_all self.old.set.window) result self.old self.new }
        ensures shows { Shows (leave_all self.old.set.window) result self.old
            (O.has_seen observer.old) (O.has_seen observer.new) }
        ensures open { OnOk result (self.new.stop ≡ None) }
        ensures not_gate { result ≢ Err Stop.GateFull }
        ensures arena_full { result ≡ Err Stop.ArenaFull → (state : State) (given : Given)
            → IsIn state given self.old
            → StopsAsTheyLeave self.old.set.map.limit self.old.set.window state given self.new }
        ensures setting { O.setting observer.new ≡ O.setting observer.old }
    {
        laws::leaving();
        while let Some((proxy, batch)) = self.gate.next_for(self.version) {
            self.answer(observer, proxy, batch)?;
        }
        Ok(())
    }
}

// Returns the answer to a repeat of the proxy's batch of this version.
fn find(alloc: Global, replies: &Replies, proxy: usize, version: i64) -> Result<Answer, Stop>
    ensures found { IfOk result (λ answer. answer
        ≡ reply_or_never version (reply_of replies.now proxy version)) }
    ensures memory { IfErr result (λ stop. stop ≡ Stop.Memory) }
{
    match replies.find(proxy, version) {
        Some(reply) => Ok(Answer::Reply(reply.copy(alloc)?)),
        None => Ok(Answer::Never(version)),
    }
}

// Gives up the proxy's replies up to the version that it has received, and keeps a copy of this
// one.
fn keep(
    alloc: Global,
    replies: &mut Replies,
    proxy: usize,
    received: i64,
    reply: &Reply,
) -> Result<(), Stop>
    requires absent { reply_of replies.old proxy reply.now.version ≡ None }
    ensures ok { OnOk result ((p : ℕ) (v : ℤ) → reply_of replies.new p v
        ≡ kept_also proxy received reply.now (reply_of replies.old) p v) }
    ensures err { OnErr result ((p : ℕ) (v : ℤ) (kept : Reply)
        → reply_of replies.new p v ≡ Some kept
        → reply_of replies.old p v ≡ Some kept) }
    ensures memory { IfErr result (λ stop. stop ≡ Stop.Memory) }
{
    replies.forget_to(proxy, received);
    replies.put(proxy, reply.copy(alloc)?)?;
    Ok(())
}
