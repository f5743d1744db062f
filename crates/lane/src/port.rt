//! The end of a lane that sends.

ghost use Rattle.std.specs.Prelude.{◌≡◌, ◌+◌, ◌<◌, ◌≤◌, ◌↔◌, true, false, length, IsTrue};
ghost use Rattle.lane.specs.Calls.{Sends};
ghost use Rattle.lane.specs.Ends.{IsPort};
ghost use Rattle.lane.specs.Steps.{HeadLooked, HasSent};

use crate::ring::plays::{Claims, Closes, LooksAtHead, StoresTail};
use crate::ring::{CLOSING_BIT, HEAD, Ring, TAIL, Token};
use crossbeam_utils::CachePadded;
use std::alloc::Global;
use std::marker::Model;
use std::sync::Arc;

/// The most items that a port sends.
pub const MAX_SENT: u64 = 1 << 62;

const _: () = prove!(MAX_SENT == 4_611_686_018_427_387_904);

/// Why an item was not sent, with the item.
#[derive(Debug, PartialEq, Eq, Drop)]
pub enum Refused<T> {
    /// As many items as the lane holds were sent and not seen taken.
    Full(T),
    /// The port has closed the lane.
    Closed(T),
    /// The port has sent [`MAX_SENT`] items.
    Worn(T),
}

/// What a port counts: how many items it has sent, how many its last look found taken, and whether
/// it has closed the lane.
#[derive(Drop)]
pub(crate) struct PortCounts {
    pub(crate) capacity: usize,
    pub(crate) sent: u64,
    pub(crate) seen_taken: u64,
    pub(crate) closed: bool,
}

/// The end of a lane that sends items and closes the lane.
#[derive(Drop)]
pub struct Port<T> {
    pub(crate) ring: Arc<Ring<T>, Global>,
    // It is there but while it is joined to the intake's.
    pub(crate) token: Option<Token<T>>,
    pub(crate) counts: CachePadded<PortCounts>,
}

impl<T> Model for Port<T> {
    ghost use Rattle.std.specs.Prelude.{◌≡◌};
    ghost use Rattle.std.specs.Arc.{arc_value};
    ghost use Rattle.crossbeam_utils.specs.Padded.{padded_value};
    ghost use Rattle.lane.specs.Lane.{PortView};
    ghost use Rattle.lane.specs.Ends.{port_of, HasPort};

    ghost Value = { PortView T };

    ghost view = { λ p. record {
      lane = record { ring = (arc_value p.ring).shared.table_id };
      capacity = (arc_value p.ring).shared.table_id.slots;
      sent = (port_of p.token).sent;
      closed = (port_of p.token).closed;
      seen_taken = (port_of p.token).seen_taken;
      looks = (port_of p.token).looks;
      log = (port_of p.token).log;
    } };

    ghost invariant = { λ p. HasPort (arc_value p.ring).shared.table_id p.token
        (padded_value p.counts) };
}

impl<T> Port<T> {
    /// Sends the item. A refusal hands it back: `Closed` after [`Port::close`], else `Worn` after
    /// [`MAX_SENT`] items, else `Full` where the port, looking anew in that call, has seen none of
    /// the last `capacity` items taken.
    pub fn send(&mut self, item: T) -> Result<(), Refused<T>>
        ensures sends { Sends item result self.old self.new }
    {
        if self.counts.closed {
            return Err(Refused::Closed(item));
        }
        if self.counts.sent == MAX_SENT {
            return Err(Refused::Worn(item));
        }
        let Some(token) = &mut self.token else {
            unreachable!()
        };
        if is_full(&self.counts) {
            look(&self.ring, token, &mut self.counts);
            if is_full(&self.counts) {
                return Err(Refused::Full(item));
            }
        }
        push(&self.ring, token, &mut self.counts, item);
        Ok(())
    }

    /// Closes the lane: nothing is sent afterwards. A second close changes nothing.
    pub fn close(&mut self)
        ensures closed { self.new ≡ record self.old { closed = true } }
    {
        if self.counts.closed {
            return;
        }
        let Some(token) = &mut self.token else {
            unreachable!()
        };
        self.counts.closed = true;
        self.ring
            .shared
            .store::<Closes>(token, TAIL, self.counts.sent + CLOSING_BIT);
    }

    /// Returns how many items were sent.
    pub fn sent(&self) -> u64
        ensures count { result ≡ length self.now.sent }
    {
        self.counts.sent
    }
}

// Whether none of the last `capacity` items was seen taken.
fn is_full(counts: &PortCounts) -> bool
    requires taken_sent { counts.now.seen_taken ≤ counts.now.sent }
    requires few { counts.now.sent ≤ MAX_SENT }
    ensures full { IsTrue result ↔ (counts.now.seen_taken + counts.now.capacity ≤ counts.now.sent) }
{
    counts.sent - counts.seen_taken >= counts.capacity as u64
}

// The port's look: it loads head. Nothing else changes what the port has seen taken.
pub(crate) fn look<T>(ring: &Ring<T>, token: &mut Token<T>, counts: &mut PortCounts)
    requires port { IsPort ring.now.shared.table_id token.old counts.old }
    ensures port { IsPort ring.now.shared.table_id token.new counts.new }
    ensures looked { HeadLooked ring.now.shared.table_id.slots token.old.me counts.new.seen_taken
        token.new.me }
{
    counts.seen_taken = ring.shared.load::<LooksAtHead>(token, HEAD);
}

// Puts the item into the next slot, and then informs the intake.
fn push<T>(ring: &Ring<T>, token: &mut Token<T>, counts: &mut PortCounts, item: T)
    requires port { IsPort ring.now.shared.table_id token.old counts.old }
    requires open { counts.old.closed ≡ false }
    requires few { counts.old.sent < MAX_SENT }
    requires room { counts.old.sent < counts.old.seen_taken + counts.old.capacity }
    ensures port { IsPort ring.now.shared.table_id token.new counts.new }
    ensures sent { HasSent item token.old.me.0 token.new.me.0 }
{
    // The load makes the slot the port's: it finds what the port itself stored.
    ring.shared.load::<Claims>(token, TAIL);
    let slot = (counts.sent % counts.capacity as u64) as usize;
    let vacant = ring.shared.exchange(token, slot, Some(item));
    let None = vacant else { unreachable!() };
    counts.sent += 1;
    ring.shared.store::<StoresTail>(token, TAIL, counts.sent);
}
