//! The answers of one proxy, as its worker takes them.

ghost use Rattle.std.specs.Prelude.{◌≡◌, [], ◌∷◌, ◌++◌, true, false};
ghost use Rattle.lane.specs.Lane.{HasEnded};
ghost use Rattle.replay_output.specs.Line.{answer_of, IsLineOf};
ghost use Rattle.replay_workers.specs.Ends.{SendsNothing};
ghost use Rattle.replay_workers.specs.Inbox.{Keeps, InboxContinues};
ghost use Rattle.replay_output.specs.declared.line.Line.{Line as LineOfAnswer};

use crate::ends::Ends;
use crate::gatekeeper::Gatekeeper;
use crate::rest::pause;
use crate::worker::Assignment;
use keyspace::Answer;
use lane::Taken;
use replay_output::{Line, Style};
use resolver::Client;
use std::alloc::Global;
use std::sync::Wait;

/// Takes the answers of one proxy and keeps their lines.
#[derive(Drop)]
pub struct Inbox {
    pub ends: Ends,
    /// The lines of the answers, in the order taken.
    pub lines: Vec<Line>,
    /// The line of an answer could not be kept. Later answers are dropped too.
    pub lost: bool,
    pub proxy: usize,
    /// How answers are printed.
    pub style: Style,
    alloc: Global,
    // The place of the next answer. It stops at `u64::MAX`, which no lane comes to.
    place: u64,
}

impl Inbox {
    /// Creates an inbox that has kept nothing.
    pub fn new(alloc: Global, assignment: Assignment, client: Client) -> Self
        ensures requests { result.ends.requests ≡ client.requests }
        ensures replies { result.ends.replies ≡ client.replies }
        ensures given { result.ends.given.value ≡ client }
        ensures asks_as { result.ends.proxy ≡ assignment.proxy }
        ensures share { result.ends.share ≡ assignment.share }
        ensures proxy { result.proxy ≡ assignment.proxy }
        ensures style { result.style ≡ assignment.style }
        ensures lines { Keeps client.replies.taken result }
    {
        let Assignment { proxy, style, .. } = assignment;
        Inbox {
            ends: Ends::new(assignment, client),
            lines: Vec::new(alloc),
            lost: false,
            proxy,
            style,
            alloc,
            place: 0,
        }
    }

    /// Takes all answers that have come. Returns whether the lane is at its end.
    pub fn take_all<G: Gatekeeper, R: Wait>(&mut self, rt: &R, gatekeeper: &G) -> bool
        ensures inbox { InboxContinues self.old self.new }
        ensures nothing_sent { SendsNothing self.old.ends self.new.ends }
        ensures end { result ≡ true → HasEnded self.new.ends.replies }
    {
        for _ in rt.forever() {
            match self.ends.take() {
                Taken::Item(answer) => {
                    self.keep(answer);
                    gatekeeper.answered(self.proxy, self.place);
                    self.place = self.place.saturating_add(1);
                }
                Taken::Empty => return false,
                Taken::End => return true,
            }
        }
        unreachable!()
    }

    /// Takes answers until the lane is at its end.
    #[tactic(auto, using(crate::proofs::Keeping::inbox_continues))]
    pub fn take_to_end<G: Gatekeeper, R: Wait>(&mut self, rt: &R, gatekeeper: &G)
        ensures inbox { InboxContinues self.old self.new }
        ensures nothing_sent { SendsNothing self.old.ends self.new.ends }
        ensures end { HasEnded self.new.ends.replies }
    {
        for _ in rt.forever() {
            if self.take_all(rt, gatekeeper) {
                return;
            }
            pause(rt);
        }
        unreachable!()
    }

    // Keeps the line of an answer, unless one was lost before.
    fn keep(&mut self, answer: Answer)
        ensures ends { self.new.ends ≡ self.old.ends }
        ensures proxy { self.new.proxy ≡ self.old.proxy }
        ensures style { self.new.style ≡ self.old.style }
        ensures loss_stays { self.old.lost ≡ true → self.new.lost ≡ true }
        ensures lost { self.new.lost ≡ true → self.new.lines.items ≡ self.old.lines.items }
        ensures kept { self.new.lost ≡ false → (line : LineOfAnswer)
            × (self.new.lines.items ≡ self.old.lines.items ++ line ∷ [])
            × (answer_of line ≡ answer) × IsLineOf self.old.style self.old.proxy line }
    {
        if self.lost {
            return;
        }
        let Some(line) = Line::new(self.alloc, self.style, self.proxy, answer) else {
            self.lost = true;
            return;
        };
        self.lost = self.lines.push(line).is_err();
    }
}
