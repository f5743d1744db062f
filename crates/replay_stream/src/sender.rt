//! A sender reads the file of one proxy and sends its batches, in its own thread.

ghost use Rattle.std.specs.Prelude.{◌≡◌, ◌<◌, ◌⊎◌, [], ◌∷◌, ◌++◌, length, None};
ghost use Rattle.std.specs.Prelude.{IsTrue, OnOk, OnErr, IfErr};
ghost use Rattle.replay_workers.specs.Share.{unanswered};
ghost use Rattle.lane.specs.Lane.{PortContinues};
ghost use Rattle.lane.specs.Refused.{item_of};
ghost use Rattle.replay_workers.specs.Reporting.{SendsFrames};
ghost use Rattle.replay_workers.specs.Worker.{SendsBatches, batch_of, fault_of, unsent_of};
ghost use Rattle.replay_stream.specs.Sender.{HasSent};

use crate::progress::AnswerProgress;
use keyspace::Batch;
use lane::{Port, Refused};
use replay_output::Reports;
use replay_workers::{
    Assignment, FileEnd, Gatekeeper, Leftover, ShareKeeper, Stand, is_below_share, pause,
    read_asking,
};
use std::alloc::Global;
use std::sync::Wait;
use wire::{Batches, Source, WireError, read_frames};

/// What a sender returns.
#[derive(Drop)]
pub struct Sent {
    /// The port that it was given.
    pub requests: Port<Batch>,
    /// The fault of the file, which ended it.
    pub fault: Option<WireError>,
    /// The batch that was read last, if the proxy was ended or the lane takes no more.
    pub unsent: Option<Batch>,
}

// A proxy's port of its request lane.
#[derive(Drop)]
struct Sender {
    requests: Port<Batch>,
    proxy: usize,
    share: u64,
    // The place of the next batch. It stops at `u64::MAX`, which no lane comes to.
    place: u64,
}

/// Sends the batches of the frames of a file, in order, up to the file's end or its fault, and
/// closes the lane. Once the proxy is ended, it sends no more. Transactions ask for their reports
/// as in the file, or all of them do.
///
/// If its share is used up, it stands: it sends the next batch only if the gatekeeper admits it, or
/// once an answer was taken.
pub fn send_all<S: Source + Drop, G: Gatekeeper + ShareKeeper, R: Wait>(
    rt: &R,
    alloc: Global,
    assignment: Assignment,
    requests: Port<Batch>,
    reader: S,
    reports: Reports,
    gatekeeper: &G,
    progress: &AnswerProgress,
) -> Sent
    ensures sent { HasSent reports (S.remaining reader) requests result }
{
    let Assignment { proxy, share, .. } = assignment;
    let mut sender = Sender {
        requests,
        proxy,
        share,
        place: 0,
    };
    let end = sender.send_file(rt, alloc, gatekeeper, progress, reader, reports);
    sender.requests.close();
    gatekeeper.closed(proxy);
    sender.finish(end)
}

impl Sender {
    // Sends the batches of the file, in order.
    fn send_file<S: Source + Drop, G: Gatekeeper + ShareKeeper, R: Wait>(
        &mut self,
        rt: &R,
        alloc: Global,
        gatekeeper: &G,
        progress: &AnswerProgress,
        reader: S,
        reports: Reports,
    ) -> FileEnd
        ensures requests { PortContinues self.old.requests self.new.requests }
        ensures sent { SendsFrames reports (S.remaining reader) self.old.requests.sent
            self.new.requests.sent (fault_of result) (unsent_of result) }
    {
        match reports {
            Reports::Asked => {
                let mut frames = read_frames(alloc, reader);
                self.send_batches(rt, gatekeeper, progress, &mut frames)
            }
            Reports::All => {
                let mut asking = read_asking(alloc, reader);
                self.send_batches(rt, gatekeeper, progress, &mut asking)
            }
        }
    }

    // Sends the batches of the stream, in order.
    fn send_batches<B: Batches, G: Gatekeeper + ShareKeeper, R: Wait>(
        &mut self,
        rt: &R,
        gatekeeper: &G,
        progress: &AnswerProgress,
        batches: &mut B,
    ) -> FileEnd
        requires fresh { B.refusal batches.old ≡ None }
        ensures requests { PortContinues self.old.requests self.new.requests }
        ensures sent { SendsBatches B.gives B.is_at_end B.is_at_fault batches.old
            self.old.requests.sent self.new.requests.sent (fault_of result) (unsent_of result) }
    {
        for _ in rt.forever() {
            match batches.next() {
                Ok(Some(batch)) => {
                    if let Err(leftover) = self.send(rt, gatekeeper, progress, batch) {
                        return FileEnd::Leaves(leftover);
                    }
                }
                Ok(None) => return FileEnd::Reached,
                Err(fault) => return FileEnd::Fault(fault),
            }
        }
        unreachable!()
    }

    // Sends a batch as soon as the gatekeeper and the lane admit it. Returns the batch if it may
    // send no more, or if the lane takes no more.
    fn send<G: Gatekeeper + ShareKeeper, R: Wait>(
        &mut self,
        rt: &R,
        gatekeeper: &G,
        progress: &AnswerProgress,
        batch: Batch,
    ) -> Result<(), Leftover>
        ensures requests { PortContinues self.old.requests self.new.requests }
        ensures sent { OnOk result (self.new.requests.sent ≡ self.old.requests.sent ++ batch ∷ []) }
        ensures unchanged { OnErr result (self.new.requests.sent ≡ self.old.requests.sent) }
        ensures returned { IfErr result (λ leftover. batch_of leftover ≡ batch) }
    {
        let mut waiting = batch;
        for _ in rt.forever() {
            if progress.has_ended() {
                return Err(Leftover::CutShort(waiting));
            }
            waiting = match self.try_send(gatekeeper, progress.answered(), waiting) {
                Ok(()) => return Ok(()),
                Err(Refused::Full(refused)) => refused,
                Err(Refused::Closed(refused) | Refused::Worn(refused)) => {
                    return Err(Leftover::Worn(refused));
                }
            };
            pause(rt);
        }
        unreachable!()
    }

    // Tries once, after `answered` answers. A batch that the gatekeeper or the share holds back is
    // refused as by a full lane.
    fn try_send<G: Gatekeeper + ShareKeeper>(
        &mut self,
        gatekeeper: &G,
        answered: u64,
        batch: Batch,
    ) -> Result<(), Refused<Batch>>
        ensures requests { PortContinues self.old.requests self.new.requests }
        ensures sent { OnOk result (self.new.requests.sent ≡ self.old.requests.sent ++ batch ∷ []) }
        ensures unchanged { OnErr result (self.new.requests.sent ≡ self.old.requests.sent) }
        ensures returned { IfErr result (λ refused. item_of refused ≡ batch) }
        ensures share { OnOk result
            ((unanswered (length self.old.requests.sent) answered < self.old.share)
            ⊎ G.admits gatekeeper.now self.old.proxy
            record { previous = batch.previous; answered = answered }) }
    {
        if !self.may_send(gatekeeper, answered, &batch) {
            return Err(Refused::Full(batch));
        }
        self.requests.send(batch)?;
        self.place = self.place.saturating_add(1);
        Ok(())
    }

    // Returns whether the batch may be sent now, after `answered` answers: it may if the share
    // isn't used up, or else if the gatekeeper admits it.
    fn may_send<G: Gatekeeper + ShareKeeper>(
        &self,
        gatekeeper: &G,
        answered: u64,
        batch: &Batch,
    ) -> bool
        ensures share { IsTrue result
            → (unanswered (length self.now.requests.sent) answered < self.now.share)
            ⊎ G.admits gatekeeper.now self.now.proxy
            record { previous = batch.now.previous; answered = answered } }
    {
        let stand = Stand {
            previous: batch.previous,
            answered,
        };
        gatekeeper.may_send(self.proxy, self.place)
            && (is_below_share(self.requests.sent(), answered, self.share)
                || gatekeeper.stands(self.proxy, stand))
    }

    fn finish(self, end: FileEnd) -> Sent
        ensures requests { result.requests ≡ self.requests }
        ensures fault { result.fault ≡ fault_of end }
        ensures unsent { result.unsent ≡ unsent_of end }
    {
        let (fault, unsent) = match end {
            FileEnd::Reached => (None, None),
            FileEnd::Fault(fault) => (Some(fault), None),
            FileEnd::Leaves(Leftover::CutShort(batch) | Leftover::Worn(batch)) => {
                (None, Some(batch))
            }
        };
        let Sender { requests, .. } = self;
        Sent {
            requests,
            fault,
            unsent,
        }
    }
}
