//! A proxy's ends of its lanes: the only way by which its worker sends and takes.

ghost use Rattle.std.specs.Prelude.{◌≡◌, ◌≤◌, ◌⊎◌, ◌↔◌, ◌++◌, ◌∷◌, [], true, max, length, Err};
ghost use Rattle.std.specs.Prelude.{OnOk, OnErr, IfErr, IsTrue};
ghost use Rattle.lane.specs.declared.port.TheConstants.{MAX_SENT};
ghost use Rattle.lane.specs.Lane.{HasEnded};
ghost use Rattle.lane.specs.Refused.{item_of};
ghost use Rattle.lane.specs.Taken.{items_of, IfEnd};

use crate::gatekeeper::ShareKeeper;
use crate::shares::{Stand, is_below_share};
use crate::worker::Assignment;
use keyspace::{Answer, Batch};
use lane::{Intake, Port, Refused, Taken};
use resolver::Client;
use std::snapshot::Snapshot;

/// The ends of a proxy's lanes. A batch is sent on them only within the proxy's share, or if it is
/// admitted.
#[derive(Drop)]
pub struct Ends {
    requests: Port<Batch>,
    replies: Intake<Answer>,
    proxy: usize,
    share: u64,
    // The client that the ends were made of.
    given: Snapshot<Client>,
    // So many batches at most were unanswered, right after one was sent within the share.
    most: u64,
    ghost within_share: { most ≤ share },
}

/// How many batches of a client were unanswered at most, right after one was sent that nobody had
/// admitted, between two states of the client. Only a worker's ends make one.
#[derive(Drop)]
pub struct MostUnanswered {
    given: Snapshot<Client>,
    left: Snapshot<Client>,
    proxy: usize,
    count: u64,
}

impl MostUnanswered {
    /// Returns the number of batches, 0 if none was sent.
    pub fn count(&self) -> u64
        ensures count { result ≡ self.now.count }
    {
        self.count
    }
}

impl Ends {
    ghost use Rattle.replay_workers.specs.Ends.{EndsContinue, SendsNothing, IsBelowShare};
    ghost use Rattle.replay_workers.specs.Ends.{stand_with, unanswered_of};

    /// Takes a client apart that sends and takes as this proxy, within this share.
    pub fn new(assignment: Assignment, client: Client) -> Self
        ensures requests { result.requests ≡ client.requests }
        ensures replies { result.replies ≡ client.replies }
        ensures proxy { result.proxy ≡ assignment.proxy }
        ensures share { result.share ≡ assignment.share }
        ensures given { result.given.value ≡ client }
    {
        let given = Snapshot::of(&client);
        let Client { requests, replies } = client;
        Ends {
            requests,
            replies,
            proxy: assignment.proxy,
            share: assignment.share,
            given,
            most: 0,
        }
    }

    /// Takes the next answer, as [`Intake::take`] does.
    pub fn take(&mut self) -> Taken<Answer>
        ensures ends { EndsContinue self.old self.new }
        ensures taken { self.new.replies.taken ≡ self.old.replies.taken ++ items_of result }
        ensures end { IfEnd result (HasEnded self.new.replies) }
        ensures nothing_sent { SendsNothing self.old self.new }
    {
        self.replies.take()
    }

    /// Sends the batch, as [`Port::send`] does, within the share, or if the gatekeeper admits it.
    /// Otherwise it is refused as by a full lane.
    pub fn send<G: ShareKeeper>(
        &mut self,
        gatekeeper: &G,
        batch: Batch,
    ) -> Result<(), Refused<Batch>>
        ensures ends { EndsContinue self.old self.new }
        ensures replies { self.new.replies ≡ self.old.replies }
        ensures sent { OnOk result (self.new.requests.sent ≡ self.old.requests.sent ++ batch ∷ []) }
        ensures unchanged { OnErr result (self.new.requests.sent ≡ self.old.requests.sent) }
        ensures closed_stays { self.new.requests.closed ≡ self.old.requests.closed }
        ensures returned { IfErr result (λ refused. item_of refused ≡ batch) }
        ensures closed { result ≡ Err (Refused.Closed batch) → self.new.requests.closed ≡ true }
        ensures worn { result ≡ Err (Refused.Worn batch)
            → MAX_SENT ≤ length self.new.requests.sent }

        // Within the share, and then it is counted; or admitted.
        ensures share { OnOk result ((IsBelowShare self.old.share self.old.requests
            self.old.replies × (self.new.most ≡ max self.old.most (unanswered_of self.new)))
            ⊎ (G.admits gatekeeper.now self.old.proxy
            (stand_with batch self.old.replies) × (self.new.most ≡ self.old.most))) }
        ensures not_counted { OnErr result (self.new.most ≡ self.old.most) }
    {
        if self.is_below_share() {
            self.requests.send(batch)?;
            self.most = self.most.max(self.unanswered());
            return Ok(());
        }
        if gatekeeper.stands(self.proxy, self.stand(&batch)) {
            return self.requests.send(batch);
        }
        Err(Refused::Full(batch))
    }

    /// Closes the request lane, as [`Port::close`] does.
    pub fn close(&mut self)
        ensures closed { self.new.requests ≡ record self.old.requests { closed = true } }
        ensures ends { EndsContinue self.old self.new }
        ensures replies { self.new.replies ≡ self.old.replies }
        ensures most { self.new.most ≡ self.old.most }
    {
        self.requests.close();
    }

    /// Puts the client together again.
    pub fn into_parts(self) -> (Client, MostUnanswered)
        ensures requests { result.0.requests ≡ self.requests }
        ensures replies { result.0.replies ≡ self.replies }
        ensures given { result.1.given.value ≡ self.given.value }
        ensures left { result.1.left.value ≡ result.0 }
        ensures proxy { result.1.proxy ≡ self.proxy }
        ensures count { result.1.count ≡ self.most }
        ensures within_share { result.1.count ≤ self.share }
    {
        let Ends {
            requests,
            replies,
            proxy,
            given,
            most,
            ..
        } = self;
        let client = Client { requests, replies };
        let left = Snapshot::of(&client);
        let most_unanswered = MostUnanswered {
            given,
            left,
            proxy,
            count: most,
        };
        (client, most_unanswered)
    }

    // Returns whether the share isn't used up.
    fn is_below_share(&self) -> bool
        ensures below { IsTrue result ↔ IsBelowShare self.now.share self.now.requests
            self.now.replies }
    {
        is_below_share(self.requests.sent(), self.replies.taken(), self.share)
    }

    // Returns how many batches are unanswered.
    fn unanswered(&self) -> u64
        ensures count { result ≡ unanswered_of self.now }
    {
        self.requests.sent().saturating_sub(self.replies.taken())
    }

    // Returns the report that this batch is ready.
    fn stand(&self, batch: &Batch) -> Stand
        ensures stand { result ≡ stand_with batch.now self.now.replies }
    {
        Stand {
            previous: batch.previous,
            answered: self.replies.taken(),
        }
    }
}
