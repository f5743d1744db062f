//! A conflict set that takes and gives frames.

ghost use Rattle.std.specs.Prelude.{◌≡◌, ◌≤◌, ◌⊎◌, ◌↔◌, ◌≤ℤ◌, ◌<ℤ◌, List, length, take, Err, None};
ghost use Rattle.std.specs.Prelude.{Some, IsTrue, IfOk, IfErr, IfSome};
ghost use Rattle.keyspace.specs.Writes.{Write};
ghost use Rattle.conflict.specs.declared.error.SetStop.{SetStop as SetStopValue};
ghost use Rattle.conflict.specs.ConflictSet.{new_set, stop_after, Remembers};
ghost use Rattle.conflict.specs.Stop.{stop_at_set};
ghost use Rattle.archcaraway_c.specs.BatchFrame.{IsFrame, IsNoFrame};
ghost use Rattle.archcaraway_c.specs.Bound.{most_reply_length};
ghost use Rattle.archcaraway_c.specs.Numbers.{AreSetNumbers};
ghost use Rattle.archcaraway_c.specs.SetObject.{Replies, Resolves, StopsAt, SetRefuses, Stops};

mod batch_judgement;
mod memory_release;
mod start;

use crate::batch_frame::decode_frame;
use crate::bound::most_reply_length;
use crate::numbers::are_set_numbers;
use crate::refusal::Refusal;
use crate::reply_frame::put_frame;
use conflict::{ConflictSet, SetStop, WhenFull};
use keyspace::Batch;
use limits::Stop;
use std::alloc::Global;
use std::marker::Model;
use wire::encode_reply;

/// A conflict set that C holds by a handle. Contracts see it as the state of that set.
#[derive(Drop)]
pub struct SetObject {
    alloc: Global,
    set: ConflictSet,
    resolved: i64,
    stop: Option<SetStop>,
}

impl Model for SetObject {
    ghost use Rattle.conflict.specs.ConflictSet.{SetState};
    ghost use Rattle.archcaraway_c.specs.SetObject.{AreSetParts};

    ghost Value = { SetState };

    ghost view = { λ o. record o.set { stop = o.stop } };

    ghost invariant = { λ o. AreSetParts o.set o.resolved o.stop };
}

impl SetObject {
    /// Creates a set that has resolved nothing. `window` is how far back it remembers writes, in
    /// versions; it never keeps more boundaries than `limit`. Returns `Argument` if one of them is
    /// outside its range, and the stop `Memory` if memory is refused.
    pub fn new(alloc: Global, window: i64, limit: u64) -> Result<Self, Refusal>
        ensures empty { IfOk result (λ object. object ≡ new_set window limit) }
        ensures within { IfOk result (λ _. AreSetNumbers window limit) }
        ensures refused { IfErr result
            (λ refusal. (AreSetNumbers window limit × (refusal ≡ Refusal.Stop Stop.Memory))
            ⊎ ((¬ AreSetNumbers window limit) × (refusal ≡ Refusal.Argument))) }
    {
        if !are_set_numbers(window, limit) {
            return Err(Refusal::Argument);
        }
        let Ok(set) = ConflictSet::new(alloc, window, limit as usize) else {
            return Err(Refusal::Stop(Stop::Memory));
        };
        Ok(SetObject {
            alloc,
            set,
            resolved: -1,
            stop: None,
        })
    }

    /// Resolves the batch of a frame, writes the frame of its reply to the front of the buffer, and
    /// returns the length of that.
    ///
    /// The first of these that holds decides. The set has stopped: that stop. The bytes aren't one
    /// frame: `Wire`, `Behind`. The version of the batch isn't above that of the batch resolved
    /// last: `Version`. The buffer is shorter than the longest reply to the batch: `Buffer`. Then
    /// the batch is resolved, or the set stops for good: with `ArenaFull` only if what the batch
    /// commits can't be written within the limit. If `when_full` is `Refuse`, it doesn't stop for
    /// that, and returns the same. After any refusal but a stop that is met now, the set is as
    /// before.
    pub fn resolve(
        &mut self,
        frame: &[u8],
        answer: &mut [u8],
        when_full: WhenFull,
    ) -> Result<usize, Refusal>
        ensures resolved { IfOk result
            (λ count. Resolves self.old self.new frame.now (take count answer.new)) }
        ensures within { IfOk result (λ count. count ≤ length answer.new) }
        ensures refused { IfErr result
            (λ refusal. SetRefuses when_full self.old self.new frame.now (length answer.old)
            refusal) }
        ensures kept { IfErr result (λ refusal. (self.new ≡ self.old) ⊎ Stops self.new refusal) }
        ensures stopped { IfSome self.old.stop
            (λ stop. (result ≡ Err (Refusal.Stop (stop_at_set stop)))
            × (self.new ≡ self.old)) }
    {
        if let Some(stop) = self.stop() {
            return Err(Refusal::Stop(Stop::from(stop)));
        }
        let batch = match self.decode(frame) {
            Ok(batch) => batch,
            Err(refusal) => return Err(refusal),
        };
        if self.is_late(&batch) {
            return Err(Refusal::Version);
        }
        let most = most_reply_length(&batch);
        if answer.len() < most {
            return Err(Refusal::Buffer(most));
        }
        match self.reply(&batch, when_full) {
            Ok(reply) => Ok(put_frame(&reply, answer)),
            Err(refusal) => Err(refusal),
        }
    }

    /// Returns the number of boundaries, that at the empty key included. It never exceeds the
    /// limit.
    pub fn boundaries(&self) -> u64
        ensures count { result ≡ length self.now.map.boundaries }
        ensures within { result ≤ self.now.map.limit }
    {
        self.set.boundaries() as u64
    }

    // Returns the stop that was met, if any.
    fn stop(&self) -> Option<SetStop>
        ensures stop { result ≡ self.now.stop }
    {
        self.stop
    }

    // Decodes the frame of a batch.
    fn decode(&self, frame: &[u8]) -> Result<Batch, Refusal>
        ensures frame { IfOk result (λ batch. IsFrame frame.now batch) }
        ensures refused { IfErr result (λ refusal. IsNoFrame frame.now refusal) }
    {
        decode_frame(self.alloc, frame)
    }

    // Returns whether the version of the batch isn't above that of the batch resolved last.
    fn is_late(&self, batch: &Batch) -> bool
        requires continues { self.now.stop ≡ None }
        ensures late { IsTrue result ↔ (batch.now.version ≤ℤ self.now.resolved) }
    {
        batch.version <= self.resolved
    }

    // Resolves a batch and returns the frame of its reply, or stops, or refuses it.
    fn reply(&mut self, batch: &Batch, when_full: WhenFull) -> Result<Vec<u8>, Refusal>
        requires continues { self.old.stop ≡ None }
        requires rising { self.old.resolved <ℤ batch.now.version }
        ensures replies { IfOk result (λ reply. Replies self.old self.new batch.now reply.items) }
        ensures short { IfOk result (λ reply. length reply.items ≤ most_reply_length batch.now) }
        ensures stops { IfErr result (λ refusal. (met : SetStopValue)
            × (refusal ≡ Refusal.Stop (stop_at_set met))
            × StopsAt when_full self.old self.new batch.now met) }
    {
        match reply_to(self.alloc, &mut self.set, batch, when_full) {
            Ok(reply) => {
                self.resolved = batch.version;
                Ok(reply)
            }
            Err(stop) => {
                self.stop = when_full.stop_for(stop);
                Err(Refusal::Stop(Stop::from(stop)))
            }
        }
    }
}

// Resolves a batch, and returns the frame of its reply.
fn reply_to(
    alloc: Global,
    set: &mut ConflictSet,
    batch: &Batch,
    when_full: WhenFull,
) -> Result<Vec<u8>, SetStop>
    requires continues { set.old.stop ≡ None }
    requires rising { set.old.resolved <ℤ batch.now.version }
    requires remembers { (ws : List Write) × Remembers set.old ws }
    ensures replies { IfOk result (λ reply. Replies set.old set.new batch.now reply.items) }
    ensures short { IfOk result (λ reply. length reply.items ≤ most_reply_length batch.now) }
    ensures stops { IfErr result (λ stop. StopsAt when_full set.old
        (record set.new { stop = stop_after when_full stop }) batch.now stop) }
    ensures refused { when_full ≡ WhenFull.Refuse → result ≡ Err SetStop.ArenaFull
        → set.new ≡ set.old }
    ensures remembers { (ws : List Write) × Remembers set.new ws }
{
    let reply = match set.resolve_when(batch, when_full) {
        Ok(reply) => reply,
        Err(stop) => return Err(stop),
    };
    match encode_reply(alloc, &reply) {
        Ok(frame) => Ok(frame),
        Err(_) => Err(SetStop::Memory),
    }
}
