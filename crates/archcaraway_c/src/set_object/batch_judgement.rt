//! A conflict set judges transactions that come without a frame.

ghost use Rattle.std.specs.Prelude.{◌≡◌, ◌≤◌, ◌<ℤ◌, ◌≤ℤ◌, ◌⊎◌, ◌↔◌, pos, length, take, Err, None};
ghost use Rattle.std.specs.Prelude.{IsTrue, IfOk, IfErr, IfSome, OnOk};
ghost use Rattle.conflict.specs.declared.error.SetStop.{SetStop as SetStopValue};
ghost use Rattle.conflict.specs.Stop.{stop_at_set};
ghost use Rattle.archcaraway_c.specs.SetObject.{StopsAt};
ghost use Rattle.archcaraway_c.specs.Judging.{Judges, JudgesBatch, JudgeRefuses, verdict_number};
ghost use Rattle.archcaraway_c.specs.Judging.{verdict_numbers};

use super::SetObject;
use crate::batch_object::BatchObject;
use crate::refusal::Refusal;
use conflict::WhenFull;
use keyspace::{Batch, Entry, Verdict};
use limits::Stop;
use wire::WireError;

impl SetObject {
    /// Judges the transactions of a batch at a version, and writes the numbers of their verdicts to
    /// the front of the buffer.
    ///
    /// The first of these that holds decides. The set has stopped: that stop. The version is
    /// negative, or not above that resolved last: `Version`. There is no room for the verdicts:
    /// `Buffer`. Memory is refused before the batch is judged: `Wire` of `Memory`. Then the batch
    /// is judged, or the set stops for good; if `when_full` is `Refuse`, it doesn't stop for a
    /// batch that doesn't fit the limit. After any refusal but a stop that is met now, the set is
    /// as before.
    pub fn judge(
        &mut self,
        batch: &BatchObject,
        version: i64,
        verdicts: &mut [u8],
        when_full: WhenFull,
    ) -> Result<(), Refusal>
        ensures judged { OnOk result (Judges self.old self.new version batch.now
            (take (length batch.now) verdicts.new)) }
        ensures refused { IfErr result (λ refusal.
            JudgeRefuses when_full self.old self.new version batch.now (length verdicts.old)
            refusal) }
        ensures stopped { IfSome self.old.stop
            (λ stop. (result ≡ Err (Refusal.Stop (stop_at_set stop)))
            × (self.new ≡ self.old)) }
    {
        if let Some(stop) = self.stop() {
            return Err(Refusal::Stop(Stop::from(stop)));
        }
        if self.is_past(version) {
            return Err(Refusal::Version);
        }
        if verdicts.len() < batch.len() {
            return Err(Refusal::Buffer(batch.len()));
        }
        let Ok(batch) = batch.to_batch(-1, version, -1) else {
            return Err(Refusal::Wire(WireError::Memory));
        };
        match self.judge_batch(&batch, verdicts, when_full) {
            Ok(()) => Ok(()),
            Err(refusal) => Err(refusal),
        }
    }

    // Returns whether the version is negative, or not above that of the batch resolved last.
    fn is_past(&self, version: i64) -> bool
        requires continues { self.now.stop ≡ None }
        ensures past { IsTrue result ↔ ((version <ℤ pos 0) ⊎ (version ≤ℤ self.now.resolved)) }
    {
        version < 0 || version <= self.resolved
    }

    // Judges a batch, and writes the numbers of its verdicts; or stops, or refuses it.
    fn judge_batch(
        &mut self,
        batch: &Batch,
        verdicts: &mut [u8],
        when_full: WhenFull,
    ) -> Result<(), Refusal>
        requires continues { self.old.stop ≡ None }
        requires rising { self.old.resolved <ℤ batch.now.version }
        requires room { length batch.now.txns ≤ length verdicts.old }
        ensures judges { OnOk result (JudgesBatch self.old self.new batch.now
            (take (length batch.now.txns) verdicts.new)) }
        ensures stops { IfErr result (λ refusal. (met : SetStopValue)
            × (refusal ≡ Refusal.Stop (stop_at_set met))
            × StopsAt when_full self.old self.new batch.now met) }
    {
        match self.set.resolve_when(batch, when_full) {
            Ok(reply) => {
                self.resolved = batch.version;
                put_verdicts(reply.entries.as_slice(), verdicts);
                Ok(())
            }
            Err(stop) => {
                self.stop = when_full.stop_for(stop);
                Err(Refusal::Stop(Stop::from(stop)))
            }
        }
    }
}

// Writes the numbers of the verdicts to the front of the buffer.
fn put_verdicts(entries: &[Entry], verdicts: &mut [u8])
    requires room { length entries.now ≤ length verdicts.old }
    ensures written { take (length entries.now) verdicts.new ≡ verdict_numbers entries.now }
{
    for index in 0..entries.len() {
        verdicts[index] = number_of(entries[index].verdict);
    }
}

fn number_of(verdict: Verdict) -> u8
    ensures number { result ≡ verdict_number verdict }
{
    verdict as u8
}
