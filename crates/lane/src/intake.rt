//! The end of a lane that takes.

ghost use Rattle.std.specs.Prelude.{◌≡◌, length, drop};
ghost use Rattle.lane.specs.Lane.{SameLane};
ghost use Rattle.lane.specs.Calls.{Meets, Takes};
ghost use Rattle.lane.specs.Ends.{IsIntake};
ghost use Rattle.lane.specs.Steps.{TailLooked, NextOf};
ghost use Rattle.lane.specs.Taken.{next_of};

use crate::port::Port;
use crate::ring::joined_tokens::{join, part};
use crate::ring::plays::{Finds, LooksAtTail, StoresHead};
use crate::ring::{CLOSING_BIT, HEAD, Ring, TAIL, Token};
use crossbeam_utils::CachePadded;
use std::alloc::Global;
use std::marker::Model;
use std::sync::Arc;

/// What an intake answers.
#[derive(Debug, PartialEq, Eq, Drop)]
pub enum Taken<T> {
    /// The next item, in the order sent.
    Item(T),
    /// All that the intake has seen sent is taken, and more may be sent.
    Empty,
    /// The lane is closed, and all that was sent is taken.
    End,
}

/// What an intake counts: how many items it has taken, how many its last look found sent, and
/// whether that look found the close.
#[derive(Drop)]
pub(crate) struct IntakeCounts {
    pub(crate) capacity: usize,
    pub(crate) taken: u64,
    pub(crate) seen_sent: u64,
    pub(crate) seen_close: bool,
}

/// The end of a lane that takes items in the order sent.
#[derive(Drop)]
pub struct Intake<T> {
    pub(crate) ring: Arc<Ring<T>, Global>,
    pub(crate) token: Token<T>,
    pub(crate) counts: CachePadded<IntakeCounts>,
}

impl<T> Model for Intake<T> {
    ghost use Rattle.std.specs.Prelude.{◌≡◌};
    ghost use Rattle.std.specs.Arc.{arc_value};
    ghost use Rattle.crossbeam_utils.specs.Padded.{padded_value};
    ghost use Rattle.lane.specs.Lane.{IntakeView};
    ghost use Rattle.lane.specs.Ends.{IsIntake};

    ghost Value = { IntakeView T };

    ghost view = { λ t. record {
      lane = record { ring = (arc_value t.ring).shared.table_id };
      capacity = (arc_value t.ring).shared.table_id.slots;
      taken = t.token.me.0.intake.taken;
      seen_sent = t.token.me.0.intake.seen_sent;
      seen_close = t.token.me.0.intake.seen_close;
      looks = t.token.me.0.intake.looks;
      log = t.token.me.0.intake.log;
    } };

    ghost invariant = { λ t. IsIntake (arc_value t.ring).shared.table_id t.token
        (padded_value t.counts) };
}

impl<T> Intake<T> {
    /// Takes the next item, in the order sent, or reports that the lane is empty or at its end.
    /// After `End` the answer is always `End`.
    pub fn take(&mut self) -> Taken<T>
        ensures takes { Takes result self.old self.new }
    {
        if self.counts.taken == self.counts.seen_sent && !self.counts.seen_close {
            look(&self.ring, &mut self.token, &mut self.counts);
        }
        next(&self.ring, &mut self.token, &mut self.counts)
    }

    /// Takes the next item, together with the port of the same lane: the answer is `Empty` or `End`
    /// only if all sent items are taken. If it looks, it sees the actual state.
    pub fn take_beside(&mut self, port: &mut Port<T>) -> Taken<T>
        requires same_lane { SameLane port.old self.old }
        ensures meets { Meets port.old self.old port.new self.new }
        ensures takes { Takes result self.old self.new }
        ensures next { result ≡ next_of (drop (length self.old.taken) port.old.sent)
            port.old.closed }
    {
        let Some(theirs) = port.token.take() else {
            unreachable!()
        };
        join(&self.ring, &mut self.token, theirs);
        look(&self.ring, &mut self.token, &mut self.counts);
        let taken = next(&self.ring, &mut self.token, &mut self.counts);
        port.token = Some(part(&self.ring, &mut self.token));
        taken
    }

    /// Returns how many items were taken.
    pub fn taken(&self) -> u64
        ensures count { result ≡ length self.now.taken }
    {
        self.counts.taken
    }
}

// The intake's look: it loads tail. Nothing else changes what the intake has seen sent, or that it
// has seen the close.
pub(crate) fn look<T>(ring: &Ring<T>, token: &mut Token<T>, counts: &mut IntakeCounts)
    requires intake { IsIntake ring.now.shared.table_id token.old counts.old }
    ensures intake { IsIntake ring.now.shared.table_id token.new counts.new }
    ensures looked { TailLooked ring.now.shared.table_id.slots token.old.me counts.new.seen_sent
        counts.new.seen_close token.new.me }
{
    let tail = ring.shared.load::<LooksAtTail>(token, TAIL);
    counts.seen_close = tail >= CLOSING_BIT;
    counts.seen_sent = if counts.seen_close {
        tail - CLOSING_BIT
    } else {
        tail
    };
}

// Takes the next item that was seen sent out of its slot, and then informs the port; or else
// answers whether the lane is at its end.
fn next<T>(ring: &Ring<T>, token: &mut Token<T>, counts: &mut IntakeCounts) -> Taken<T>
    requires intake { IsIntake ring.now.shared.table_id token.old counts.old }
    ensures intake { IsIntake ring.now.shared.table_id token.new counts.new }
    ensures next { NextOf ring.now.shared.table_id.slots token.old.me.0 token.new.me.0 result }
{
    if counts.taken < counts.seen_sent {
        // The load makes the slot the intake's: it finds what the intake itself stored.
        ring.shared.load::<Finds>(token, HEAD);
        let slot = (counts.taken % counts.capacity as u64) as usize;
        let Some(item) = ring.shared.exchange(token, slot, None) else {
            unreachable!()
        };
        counts.taken += 1;
        ring.shared.store::<StoresHead>(token, HEAD, counts.taken);
        Taken::Item(item)
    } else if counts.seen_close {
        Taken::End
    } else {
        Taken::Empty
    }
}
