//! The ring that the two ends of a lane share: two words and the slots, and what a token of it
//! knows.
//!
//! Item number k, from 0, is in slot k mod capacity. Head counts the items taken. Tail counts the
//! items sent, and has the closing bit on top.
ghost use Rattle.lane.specs.Ring.{IsRing, at_first};

use crate::moves::Move;
use atomic_table::{Seat, Table, TableRule};
use std::alloc::Global;
use std::collections::LinkedList;

pub(crate) mod joined_tokens;
pub(crate) mod plays;

// Between the two words stand fifteen that nothing uses, so that they share no cache line.
pub(crate) const HEAD: usize = 0;

pub(crate) const TAIL: usize = 16;

pub(crate) const WORDS: usize = 17;

pub(crate) const CLOSING_BIT: u64 = 1 << 63;

/// The knowledge of the port's token. It has the items sent, and whether the lane is closed. Of its
/// looks it has their number and how many items the last one found taken. It also has the moves up
/// to its last look or send, and whether it holds the slot of the next item. No value of it is
/// made.
pub(crate) struct PortKnows<T> {
    pub(crate) sent: LinkedList<T>,
    pub(crate) closed: bool,
    pub(crate) seen_taken: u64,
    pub(crate) looks: u64,
    pub(crate) log: LinkedList<Move>,
    pub(crate) holds: bool,
}

/// The knowledge of the intake's token. It has the items taken. Of its looks it has their number,
/// how many items the last one found sent, and whether it found the close. It also has the moves up
/// to its last look or take, and the item whose slot it holds. No value of it is made.
pub(crate) struct IntakeKnows<T> {
    pub(crate) taken: LinkedList<T>,
    pub(crate) seen_sent: u64,
    pub(crate) seen_close: bool,
    pub(crate) looks: u64,
    pub(crate) log: LinkedList<Move>,
    pub(crate) next: Option<T>,
}

/// The knowledge of a token: which of the two it is, or both, and the number of the other tokens,
/// which only the one that takes knows. No value of it is made.
pub(crate) struct Known<T> {
    pub(crate) sends: bool,
    pub(crate) takes: bool,
    pub(crate) port: PortKnows<T>,
    pub(crate) intake: IntakeKnows<T>,
    pub(crate) others: u64,
}

pub(crate) struct Rule;

impl<T> TableRule<Option<T>, Known<T>, ()> for Rule {
    ghost holds = { λ _ state. IsRing state };

    ghost first = { λ _. at_first };
}

pub(crate) type Ring<T> = Table<Option<T>, Known<T>, (), Rule, Global>;

pub(crate) type Token<T> = Seat<Option<T>, Known<T>>;
