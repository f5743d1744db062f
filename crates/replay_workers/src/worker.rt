//! A worker reads the file of one proxy, or another stream of batches, sends these and takes their
//! answers, in its own thread.

ghost use Rattle.std.specs.Prelude.{◌≡◌, ◌<◌, ◌≤◌, ◌↔◌, Bool, None, Some};
ghost use Rattle.lane.specs.Lane.{HasEnded};
ghost use Rattle.wire.specs.Batches.{EndsWith};
ghost use Rattle.replay_workers.specs.Inbox.{Keeps, InboxContinues};
ghost use Rattle.replay_workers.specs.Worker.{HasWorked, HasWorkedOver, IsWithinShare};
ghost use Rattle.replay_workers.specs.Worker.{CannotSend, SendsBatches, IfLeaves, LeavesLane};
ghost use Rattle.replay_workers.specs.Worker.{fault_of, is_cut_short, unsent_of};

mod sending;

use crate::ends::MostUnanswered;
use crate::gatekeeper::{Gatekeeper, ShareKeeper};
use crate::inbox::Inbox;
use keyspace::Batch;
use replay_output::{Line, Style};
use resolver::Client;
use std::alloc::Global;
use std::sync::Wait;
use wire::{Batches, Source, WireError, read_frames};

/// What a worker is assigned.
#[derive(Clone, Copy, Debug, PartialEq, Eq)]
pub struct Assignment {
    /// The number of its proxy.
    pub proxy: usize,
    /// So many of its batches may be unanswered as long as it sends freely.
    pub share: u64,
    /// How answers are printed.
    pub style: Style,
}

/// What a worker returns.
#[derive(Drop)]
pub struct Finished {
    /// The client that the worker was given.
    pub client: Client,
    /// The lines of the answers, in the order taken.
    pub lines: Vec<Line>,
    /// The fault of the file, which ended it.
    pub fault: Option<WireError>,
    /// The line of an answer could not be kept. The answers after it were dropped.
    pub lost: bool,
    /// The batch that was read last, if it could not be sent: the answers had ended, and the lane
    /// is left open, or the lane takes no more.
    pub unsent: Option<Batch>,
    /// How many batches were unanswered at most, after one was sent that nobody had admitted.
    pub most_unanswered: MostUnanswered,
}

/// How the reading of a file ended.
#[derive(Drop)]
pub enum FileEnd {
    /// All of it was read and sent.
    Reached,
    /// The file has this fault.
    Fault(WireError),
    /// The batch read last can't be sent.
    Leaves(Leftover),
}

/// The batch that was read last and can't be sent.
#[derive(Drop)]
pub enum Leftover {
    /// The answers ended first.
    CutShort(Batch),
    /// The lane takes no more.
    Worn(Batch),
}

impl FileEnd {
    // Returns whether the answers ended before the file.
    fn is_cut_short(&self) -> bool
        ensures cut_short { result ≡ is_cut_short self.now }
    {
        matches!(self, FileEnd::Leaves(Leftover::CutShort(_)))
    }
}

// A proxy's ends of its lanes, and its answers.
#[derive(Drop)]
struct Worker {
    inbox: Inbox,
    // The place of the next batch. It stops at `u64::MAX`, which no lane comes to.
    place: u64,
}

/// Sends the batches of the frames of a file, in order, up to the file's end or its fault, closes
/// the lane and takes answers to their end. If the answers end earlier, as after a stop, it stops
/// sending and leaves the lane open: so a lane that is closed says that no batch was cut off.
///
/// If as many of its batches are unanswered as its share, it stands: it sends the next one only if
/// the gatekeeper lets it through, or once it has taken an answer.
pub fn work<S: Source + Drop, G: Gatekeeper + ShareKeeper, R: Wait>(
    rt: &R,
    alloc: Global,
    assignment: Assignment,
    client: Client,
    reader: S,
    gatekeeper: &G,
) -> Finished
    ensures worked { HasWorked assignment.style assignment.proxy (S.remaining reader)
        client result }
    ensures within_share { IsWithinShare assignment client result }
{
    let mut frames = read_frames(alloc, reader);
    work_over(rt, alloc, assignment, client, &mut frames, gatekeeper)
}

/// Does with the batches of a stream what [`work`] does with those of a file.
pub fn work_over<B: Batches, G: Gatekeeper + ShareKeeper, R: Wait>(
    rt: &R,
    alloc: Global,
    assignment: Assignment,
    client: Client,
    batches: &mut B,
    gatekeeper: &G,
) -> Finished
    requires fresh { B.refusal batches.old ≡ None }
    ensures worked { HasWorkedOver B.gives B.is_at_end B.is_at_fault
        (λ left. EndsWith B.stays left batches.new) assignment.style assignment.proxy batches.old
        client result }
    ensures within_share { IsWithinShare assignment client result }
{
    let mut worker = Worker::new(alloc, assignment, client);
    let end = worker.send_batches(rt, gatekeeper, batches);
    worker.close(rt, gatekeeper, &end);
    worker.finish(end)
}

impl Worker {
    fn new(alloc: Global, assignment: Assignment, client: Client) -> Self
        ensures requests { result.inbox.ends.requests ≡ client.requests }
        ensures replies { result.inbox.ends.replies ≡ client.replies }
        ensures given { result.inbox.ends.given.value ≡ client }
        ensures asks_as { result.inbox.ends.proxy ≡ assignment.proxy }
        ensures share { result.inbox.ends.share ≡ assignment.share }
        ensures proxy { result.inbox.proxy ≡ assignment.proxy }
        ensures style { result.inbox.style ≡ assignment.style }
        ensures lines { Keeps client.replies.taken result.inbox }
    {
        Worker {
            inbox: Inbox::new(alloc, assignment, client),
            place: 0,
        }
    }

    // Sends the batches of the stream, in order.
    #[tactic(auto, using(crate::proofs::Keeping::inbox_continues))]
    fn send_batches<B: Batches, G: Gatekeeper + ShareKeeper, R: Wait>(
        &mut self,
        rt: &R,
        gatekeeper: &G,
        batches: &mut B,
    ) -> FileEnd
        requires fresh { B.refusal batches.old ≡ None }
        ensures inbox { InboxContinues self.old.inbox self.new.inbox }
        ensures sent { (sends : SendsBatches B.gives B.is_at_end B.is_at_fault batches.old
            self.old.inbox.ends.requests.sent self.new.inbox.ends.requests.sent (fault_of result)
            (unsent_of result)) × EndsWith B.stays sends.left batches.new }
        ensures closed_stays { self.new.inbox.ends.requests.closed
            ≡ self.old.inbox.ends.requests.closed }
        ensures read { fault_of result ≡ Some WireError.Read
            ↔ (B.failures batches.old < B.failures batches.new) }
        ensures gives_up { IfLeaves result (λ leftover. CannotSend leftover
            self.new.inbox.ends.requests self.new.inbox.ends.replies) }
    {
        for _ in rt.forever() {
            match batches.next() {
                Ok(Some(batch)) => {
                    if let Err(leftover) = self.send(rt, gatekeeper, batch) {
                        return FileEnd::Leaves(leftover);
                    }
                }
                Ok(None) => return FileEnd::Reached,
                Err(fault) => return FileEnd::Fault(fault),
            }
        }
        unreachable!()
    }

    // Closes the lane and takes the remaining answers, unless these ended before the file: then the
    // lane stays open.
    fn close<G: Gatekeeper + ShareKeeper, R: Wait>(&mut self, rt: &R, gatekeeper: &G, end: &FileEnd)
        requires gives_up { IfLeaves end.now (λ leftover. CannotSend leftover
            self.old.inbox.ends.requests self.old.inbox.ends.replies) }
        ensures inbox { InboxContinues self.old.inbox self.new.inbox }
        ensures nothing_sent { self.new.inbox.ends.requests.sent
            ≡ self.old.inbox.ends.requests.sent }
        ensures leaves { (was : Bool) → self.old.inbox.ends.requests.closed ≡ was
            → LeavesLane was self.new.inbox.ends.requests (unsent_of end.now) }
        ensures ended { HasEnded self.new.inbox.ends.replies }
    {
        if end.is_cut_short() {
            gatekeeper.closed(self.inbox.proxy);
            return;
        }
        self.inbox.ends.close();
        gatekeeper.closed(self.inbox.proxy);
        self.inbox.take_to_end(rt, gatekeeper);
    }

    fn finish(self, end: FileEnd) -> Finished
        ensures requests { result.client.requests ≡ self.inbox.ends.requests }
        ensures replies { result.client.replies ≡ self.inbox.ends.replies }
        ensures lines { result.lines ≡ self.inbox.lines }
        ensures lost { result.lost ≡ self.inbox.lost }
        ensures fault { result.fault ≡ fault_of end }
        ensures unsent { result.unsent ≡ unsent_of end }
        ensures from { result.most_unanswered.given.value ≡ self.inbox.ends.given.value }
        ensures to { result.most_unanswered.left.value ≡ result.client }
        ensures proxy { result.most_unanswered.proxy ≡ self.inbox.ends.proxy }
        ensures within_share { result.most_unanswered.count ≤ self.inbox.ends.share }
    {
        let (fault, unsent) = match end {
            FileEnd::Reached => (None, None),
            FileEnd::Fault(fault) => (Some(fault), None),
            FileEnd::Leaves(Leftover::CutShort(batch) | Leftover::Worn(batch)) => {
                (None, Some(batch))
            }
        };
        let Worker { inbox, .. } = self;
        let Inbox {
            ends,
            lines,
            lost,
            ..
        } = inbox;
        let (client, most_unanswered) = ends.into_parts();
        Finished {
            client,
            lines,
            fault,
            lost,
            unsent,
            most_unanswered,
        }
    }
}
