//! A resolver over values takes transactions that come without a frame.

ghost use Rattle.std.specs.Prelude.{◌≡◌, ◌<◌, ◌↔◌, None, Err, length, IsTrue, IfSome, IfErr, OnOk};
ghost use Rattle.keyspace.specs.declared.batch.Batch.{Batch};
ghost use Rattle.keyspace.specs.Versions.{AreVersions};
ghost use Rattle.resolver.specs.Core.{Continues};
ghost use Rattle.archcaraway_c.specs.BatchObject.{IsBatchOf};
ghost use Rattle.archcaraway_c.specs.CoreObject.{Admits, IsGateFull};
ghost use Rattle.archcaraway_c.specs.Judging.{AdmitRefuses};

use super::CoreObject;
use crate::batch_object::BatchObject;
use crate::refusal::Refusal;
use wire::WireError;

impl CoreObject {
    /// Takes the transactions of a batch from a proxy, as the batch of these versions. It is held,
    /// or it and the batches that it frees are answered.
    ///
    /// The first of these that holds decides. There is no such proxy: `Argument`. The resolver has
    /// stopped: that stop. No batch may have these versions: `Argument`. Memory is refused before
    /// the batch is taken: `Wire` of `Memory`. Then the batch is taken, or the resolver stops for
    /// good. After any refusal but a stop that is met now, the object is as before.
    pub fn admit_batch(
        &mut self,
        proxy: u32,
        batch: &BatchObject,
        previous: i64,
        version: i64,
        received: i64,
    ) -> Result<(), Refusal>
        ensures admitted { OnOk result ((taken : Batch)
            × IsBatchOf previous version received batch.now taken
            × Admits self.old.core proxy taken self.new.core × (¬ IsGateFull self.old.core taken)) }
        ensures continues { OnOk result ((self.old.core.stop ≡ None)
            × (self.new.core.stop ≡ None)) }
        ensures refused { IfErr result (λ refusal.
            AdmitRefuses self.old self.new proxy previous version received batch.now refusal) }
        ensures stopped { proxy < length self.old.waiting
            → IfSome self.old.core.stop (λ stop. result ≡ Err (Refusal.Stop stop)) }
        ensures waiting { self.new.waiting ≡ self.old.waiting }
        ensures same { Continues self.old.core self.new.core }
    {
        let number = match self.known(proxy) {
            Ok(number) => number,
            Err(refusal) => return Err(refusal),
        };
        if let Some(stop) = self.stop() {
            return Err(Refusal::Stop(stop));
        }
        if !are_versions(previous, version, received) {
            return Err(Refusal::Argument);
        }
        let Ok(batch) = batch.to_batch(previous, version, received) else {
            return Err(Refusal::Wire(WireError::Memory));
        };
        match self.take(number, batch) {
            Ok(()) => Ok(()),
            Err(stop) => Err(Refusal::Stop(stop)),
        }
    }
}

// Returns whether a batch may have these versions.
fn are_versions(previous: i64, version: i64, received: i64) -> bool
    ensures versions { IsTrue result ↔ AreVersions previous version received }
{
    -1 <= previous && previous < version && -1 <= received && received < version
}
