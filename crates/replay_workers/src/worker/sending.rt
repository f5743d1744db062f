//! A worker sends one batch.

ghost use Rattle.std.specs.Prelude.{◌≡◌, ◌≤◌, [], ◌∷◌, ◌++◌, true, length, Err, OnOk, OnErr, IfErr};
ghost use Rattle.lane.specs.declared.port.TheConstants.{MAX_SENT};
ghost use Rattle.lane.specs.Refused.{item_of};
ghost use Rattle.replay_workers.specs.Ends.{EndsContinue};
ghost use Rattle.replay_workers.specs.Inbox.{InboxContinues};
ghost use Rattle.replay_workers.specs.Worker.{CannotSend, batch_of};

use super::{Leftover, Worker};
use crate::gatekeeper::{Gatekeeper, ShareKeeper};
use crate::rest::pause;
use keyspace::Batch;
use lane::Refused;
use std::sync::Wait;

impl Worker {
    // Sends a batch as soon as the gatekeeper, the share and the lane let it, and takes answers
    // before each try. Hands the batch back where the answers have ended, or where the lane takes
    // no more.
    #[tactic(auto, using(crate::proofs::Keeping::inbox_continues, crate::proofs::Keeping::sends_on))]
    pub(super) fn send<G: Gatekeeper + ShareKeeper, R: Wait>(
        &mut self,
        rt: &R,
        gatekeeper: &G,
        batch: Batch,
    ) -> Result<(), Leftover>
        ensures inbox { InboxContinues self.old.inbox self.new.inbox }
        ensures sent { OnOk result (self.new.inbox.ends.requests.sent
            ≡ self.old.inbox.ends.requests.sent ++ batch ∷ []) }
        ensures unchanged { OnErr result (self.new.inbox.ends.requests.sent
            ≡ self.old.inbox.ends.requests.sent) }
        ensures closed_stays { self.new.inbox.ends.requests.closed
            ≡ self.old.inbox.ends.requests.closed }
        ensures returned { IfErr result (λ leftover. batch_of leftover ≡ batch) }
        ensures gives_up { IfErr result (λ leftover. CannotSend leftover
            self.new.inbox.ends.requests self.new.inbox.ends.replies) }
    {
        let mut waiting = batch;
        for _ in rt.forever() {
            if self.inbox.take_all(rt, gatekeeper) {
                return Err(Leftover::CutShort(waiting));
            }
            waiting = match self.try_send(gatekeeper, waiting) {
                Ok(()) => return Ok(()),
                Err(Refused::Full(refused)) => refused,
                Err(Refused::Closed(refused) | Refused::Worn(refused)) => {
                    return Err(Leftover::Worn(refused));
                }
            };
            pause(rt);
        }
        unreachable!()
    }

    // Tries once. A batch that the gatekeeper or the share holds back is refused as by a full lane.
    fn try_send<G: Gatekeeper + ShareKeeper>(
        &mut self,
        gatekeeper: &G,
        batch: Batch,
    ) -> Result<(), Refused<Batch>>
        ensures ends { EndsContinue self.old.inbox.ends self.new.inbox.ends }
        ensures replies { self.new.inbox.ends.replies ≡ self.old.inbox.ends.replies }
        ensures inbox { self.new.inbox ≡ record self.old.inbox { ends = self.new.inbox.ends } }
        ensures sent { OnOk result (self.new.inbox.ends.requests.sent
            ≡ self.old.inbox.ends.requests.sent ++ batch ∷ []) }
        ensures unchanged { OnErr result (self.new.inbox.ends.requests.sent
            ≡ self.old.inbox.ends.requests.sent) }
        ensures closed_stays { self.new.inbox.ends.requests.closed
            ≡ self.old.inbox.ends.requests.closed }
        ensures returned { IfErr result (λ refused. item_of refused ≡ batch) }
        ensures closed { result ≡ Err (Refused.Closed batch)
            → self.new.inbox.ends.requests.closed ≡ true }
        ensures worn { result ≡ Err (Refused.Worn batch)
            → MAX_SENT ≤ length self.new.inbox.ends.requests.sent }
    {
        if !gatekeeper.may_send(self.inbox.proxy, self.place) {
            return Err(Refused::Full(batch));
        }
        self.inbox.ends.send(gatekeeper, batch)?;
        self.place = self.place.saturating_add(1);
        Ok(())
    }
}
