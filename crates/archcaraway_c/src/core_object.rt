//! A resolver over values that takes and gives frames.

ghost use Rattle.std.specs.Prelude.{◌≡◌, ◌≢◌, IfSome, Err, drop, slice_get, ◌<◌, ◌≤◌, ◌⊎◌, ◌∷◌};
ghost use Rattle.std.specs.Prelude.{◌++◌, ℕ, List, [], length, replicate, None, Some, Ok, OnOk};
ghost use Rattle.std.specs.Prelude.{IfOk, IfErr};
ghost use Rattle.keyspace.specs.Run.{Step, Finish};
ghost use Rattle.resolver.specs.Core.{Given as GivenSoFar, Continues};
ghost use Rattle.limits.specs.declared.settings.TheConstants.{MAX_PROXIES};
ghost use Rattle.limits.specs.declared.stop.Stop.{Stop as StopValue};
ghost use Rattle.resolver.specs.Stands.{Stands};
ghost use Rattle.archcaraway_c.specs.BatchFrame.{IsFrame, IsNoFrame};
ghost use Rattle.archcaraway_c.specs.Numbers.{AreCoreNumbers};
ghost use Rattle.archcaraway_c.specs.Given.{Reports};
ghost use Rattle.archcaraway_c.specs.CoreObject.{Admits, IsGateFull, StopsAt, CoreRefuses};
ghost use Rattle.archcaraway_c.specs.CoreObject.{GiveRefuses, still_owed, next_owed};
ghost use Rattle.archcaraway_c.specs.CoreObject.{still_owed_count};

mod admission;
mod start;

use crate::batch_frame::decode_frame;
use crate::given::Given;
use crate::numbers::are_set_numbers;
use crate::refusal::Refusal;
use crate::waiting_answers::{count_waiting, nothing_waits, write_answer};
use keyspace::{Answer, Batch};
use limits::{MAX_PROXIES, Stop};
use resolver::Core;
use std::alloc::{AllocError, Global};
use std::marker::Model;

/// A core that C holds by a handle. An answer that was taken from the core waits here until it fits
/// the buffer that C gives.
#[derive(Drop)]
pub struct CoreObject {
    alloc: Global,
    core: Core,
    waiting: Vec<Option<Answer>>,
}

impl Model for CoreObject {
    ghost use Rattle.std.specs.Coded.{codes};
    ghost use Rattle.resolver.specs.contracts.resolver_core.Core as core_type;
    ghost use Rattle.archcaraway_c.specs.CoreObject.{CoreParts, AreCoreParts};

    ghost Value = { CoreParts };

    ghost coded = { Prim.hlevel (codes, core_type.the_row.coded) };

    ghost view = { λ o. record { core = o.core; waiting = o.waiting.items } };

    ghost invariant = { λ o. AreCoreParts (record { core = o.core; waiting = o.waiting.items }) };
}

impl CoreObject {
    /// Creates a resolver for this number of proxies, which has taken nothing. `window` is how far
    /// back it remembers writes, in versions; it never keeps more boundaries than `limit`. Returns
    /// `Argument` if one of them is outside its range, and the stop `Memory` if memory is refused.
    pub fn new(alloc: Global, proxies: u32, window: i64, limit: u64) -> Result<Self, Refusal>
        ensures stands { IfOk result (λ object. Stands object.core [] (λ _. [])) }
        ensures continues { IfOk result (λ object. object.core.stop ≡ None) }
        ensures waiting { IfOk result (λ object. object.waiting ≡ replicate proxies None) }
        ensures proxies { IfOk result (λ object. length object.core.owed ≡ proxies) }
        ensures window { IfOk result (λ object. object.core.set.window ≡ window) }
        ensures limit { IfOk result (λ object. object.core.set.map.limit ≡ limit) }
        ensures within { IfOk result (λ _. AreCoreNumbers proxies window limit) }
        ensures refused { IfErr result (λ refusal.
            (AreCoreNumbers proxies window limit × (refusal ≡ Refusal.Stop Stop.Memory))
            ⊎ ((¬ AreCoreNumbers proxies window limit) × (refusal ≡ Refusal.Argument))) }
    {
        let proxies = proxies as usize;
        if proxies < 1 || proxies > MAX_PROXIES || !are_set_numbers(window, limit) {
            return Err(Refusal::Argument);
        }
        let Ok(core) = Core::new(alloc, proxies, window, limit as usize) else {
            return Err(Refusal::Stop(Stop::Memory));
        };
        match CoreObject::around(alloc, core) {
            Ok(object) => Ok(object),
            Err(_) => Err(Refusal::Stop(Stop::Memory)),
        }
    }

    // Puts an object around a core, with a place for an answer per proxy.
    fn around(alloc: Global, core: Core) -> Result<Self, AllocError>
        requires few { length core.owed ≤ MAX_PROXIES }
        ensures core { IfOk result (λ object. object.core ≡ core) }
        ensures waiting { IfOk result (λ object.
            object.waiting ≡ replicate (length core.owed) None) }
    {
        let waiting = nothing_waits(alloc, core.proxies())?;
        Ok(CoreObject {
            alloc,
            core,
            waiting,
        })
    }

    /// Takes the batch of a frame from a proxy. The batch is held, or it and the batches that it
    /// frees are answered.
    ///
    /// The first of these that holds decides. There is no such proxy: `Argument`. The resolver has
    /// stopped: that stop. The bytes aren't one frame: `Wire`, `Behind`. Then the batch is taken,
    /// or the resolver stops for good: with `GateFull` exactly if the batch would have to be held
    /// and as many are held as may be. After any refusal but a stop that is met now, the object is
    /// as before.
    pub fn admit(&mut self, proxy: u32, frame: &[u8]) -> Result<(), Refusal>
        ensures admitted { IfOk result (λ _. (batch : Batch) × IsFrame frame.now batch
            × Admits self.old.core proxy batch self.new.core × (¬ IsGateFull self.old.core batch)) }
        ensures continues { IfOk result (λ _. (self.old.core.stop ≡ None)
            × (self.new.core.stop ≡ None)) }
        ensures refused { IfErr result
            (λ refusal. CoreRefuses self.old self.new proxy frame.now refusal) }
        ensures waiting { self.new.waiting ≡ self.old.waiting }
        ensures same { Continues self.old.core self.new.core }
    {
        let number = match self.known(proxy) {
            Ok(number) => number,
            Err(refusal) => return Err(refusal),
        };
        if let Some(stop) = self.stop() {
            return Err(Refusal::Stop(stop));
        }
        let batch = match self.decode(frame) {
            Ok(batch) => batch,
            Err(refusal) => return Err(refusal),
        };
        match self.take(number, batch) {
            Ok(()) => Ok(()),
            Err(stop) => Err(Refusal::Stop(stop)),
        }
    }

    /// Answers every batch that is still held, in order of arrival. Returns the stop that was met
    /// before or is met now.
    pub fn finish(&mut self) -> Result<(), Refusal>
        ensures finished { self.old.core.stop ≡ None → (log : List Step) (given : GivenSoFar)
            → Stands self.old.core log given
            → Stands self.new.core (log ++ Finish ∷ []) given }
        ensures continues { IfOk result (λ _. (self.old.core.stop ≡ None)
            × (self.new.core.stop ≡ None)) }
        ensures refused { IfErr result (λ refusal. (stop : StopValue)
            × (refusal ≡ Refusal.Stop stop)
            × (self.new.core.stop ≡ Some stop)) }
        ensures stopped { IfSome self.old.core.stop (λ stop. (result ≡ Err (Refusal.Stop stop))
            × (self.new ≡ self.old)) }
        ensures memory { self.old.core.stop ≡ None
            → IfErr result (λ refusal. refusal ≡ Refusal.Stop Stop.Memory) }
        ensures waiting { self.new.waiting ≡ self.old.waiting }
        ensures same { Continues self.old.core self.new.core }
    {
        if let Err(stop) = self.core.finish() {
            return Err(Refusal::Stop(stop));
        }
        Ok(())
    }

    /// Gives the proxy the oldest answer owed to it, and writes the frame of a reply to the front
    /// of the buffer. Nothing changes in the core except the answers that it owes. After a refusal
    /// all of these are still owed. `Wire` is `Memory` here, or `Long` for a reply that exceeds a
    /// frame; the reply to a batch that has a frame doesn't exceed one.
    pub fn give(&mut self, proxy: u32, buffer: &mut [u8]) -> Result<Given, Refusal>
        ensures reported { IfOk result (λ given.
            Reports given buffer.new (next_owed proxy self.old)) }
        ensures taken { IfOk result (λ _. still_owed proxy self.new
            ≡ drop 1 (still_owed proxy self.old)) }
        ensures refused { IfErr result
            (λ refusal. GiveRefuses self.old proxy (length buffer.old) refusal) }
        ensures kept { IfErr result (λ _. still_owed proxy self.new ≡ still_owed proxy self.old) }
        ensures others { (other : ℕ) → other ≢ proxy
            → still_owed other self.new ≡ still_owed other self.old }
        ensures same { self.new.core ≡ record self.old.core { owed = self.new.core.owed } }
        ensures proxies { length self.new.waiting ≡ length self.old.waiting }
    {
        let proxy = self.known(proxy)?;
        self.look(proxy);
        let given = write_answer(self.alloc, &self.waiting[proxy], buffer)?;
        self.waiting[proxy] = None;
        Ok(given)
    }

    /// Returns the number of answers owed to all proxies.
    pub fn owed(&self) -> u64
        ensures count { result ≡ still_owed_count self.now }
    {
        (self.core.owed() + count_waiting(&self.waiting)) as u64
    }

    /// Returns the stop that was met, if any.
    pub fn stop(&self) -> Option<Stop>
        ensures stop { result ≡ self.now.core.stop }
    {
        self.core.stop()
    }

    // Returns the number of the proxy, if there is one of that number.
    fn known(&self, proxy: u32) -> Result<usize, Refusal>
        ensures known { IfOk result (λ number. (number ≡ proxy)
            × (number < length self.now.waiting)) }
        ensures unknown { IfErr result (λ refusal. (refusal ≡ Refusal.Argument)
            × (length self.now.waiting ≤ proxy)) }
    {
        let number = proxy as usize;
        if number < self.waiting.len() {
            Ok(number)
        } else {
            Err(Refusal::Argument)
        }
    }

    // Decodes the frame of a batch.
    fn decode(&self, frame: &[u8]) -> Result<Batch, Refusal>
        ensures frame { IfOk result (λ batch. IsFrame frame.now batch) }
        ensures refused { IfErr result (λ refusal. IsNoFrame frame.now refusal) }
    {
        decode_frame(self.alloc, frame)
    }

    // Takes a batch of a proxy, or stops.
    fn take(&mut self, proxy: usize, batch: Batch) -> Result<(), Stop>
        requires known { proxy < length self.old.waiting }
        requires continues { self.old.core.stop ≡ None }
        ensures admitted { IfOk result (λ _. Admits self.old.core proxy batch self.new.core) }
        ensures continues { IfOk result (λ _. self.new.core.stop ≡ None) }
        ensures room { OnOk result (¬ IsGateFull self.old.core batch) }
        ensures stops { IfErr result (λ stop. StopsAt self.old.core self.new.core proxy batch
            stop) }
        ensures waiting { self.new.waiting ≡ self.old.waiting }
        ensures same { Continues self.old.core self.new.core }
    {
        self.core.admit(proxy, batch)
    }

    // Takes the next answer of the proxy from the core, unless one waits.
    fn look(&mut self, proxy: usize)
        requires known { proxy < length self.old.waiting }
        ensures owed { (other : ℕ) → still_owed other self.new ≡ still_owed other self.old }
        ensures next { slice_get self.new.waiting proxy ≡ Some (next_owed proxy self.old) }
        ensures count { length self.new.waiting ≡ length self.old.waiting }
        ensures same { self.new.core ≡ record self.old.core { owed = self.new.core.owed } }
    {
        if self.waiting[proxy].is_none() {
            self.waiting[proxy] = self.core.give(proxy);
        }
    }
}
