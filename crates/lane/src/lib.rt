//! A lane: a bounded queue of items between two threads, which its port can close.
//!
//! [`lane`] makes the two ends of a lane. The [`Port`] sends items and closes the lane. The
//! [`Intake`] takes the items in the order sent, and then learns of the close. No call waits for
//! the other thread. Contracts see an end as the items that it has sent or taken, and what it has
//! seen of the other end. The definitions are in `specs/Lane.antt`. Those of the moves of both ends
//! in one order are in `specs/Moves.antt`. `Lane` holds of the two ends at every moment, in every
//! schedule. A caller that has both ends of one lane gets it from [`Intake::take_beside`] and from
//! [`agree`].
//!
//! The layer above may use these contracts alone. It knows that two ends are of one lane by keeping
//! together what [`lane`] returned.
#![tactic(auto)]

mod ends;
mod error;
mod intake;
mod moves;
mod port;
mod ring;

pub use ends::{agree, lane};
pub use error::LaneError;
pub use intake::{Intake, Taken};
pub use limits::MAX_CAPACITY;
pub use moves::Move;
pub use port::{MAX_SENT, Port, Refused};
