//! Shares: how many batches of a proxy may be unanswered, and which batch goes first if all proxies
//! have used up their share.
//!
//! A proxy sends freely while [`is_below_share`]. If it has a batch to send and its share is used
//! up, it *stands*: it reports so in a [`WaitingRoom`], which it shares with the thread that turns
//! the resolver. If all proxies wait for each other, [`next_admitted`] says whose batch is admitted
//! nevertheless. The rules of the room are those of a [`Place`], which two threads load and store
//! in a [`PlaceCell`].
//!
//! These modules know nothing about batches, lanes or the resolver except their numbers. Their
//! definitions are in `specs/Share.antt`, `specs/NextAdmitted.antt` and `specs/PlaceWords.antt`.

mod cell;
mod next;
mod place;
mod reported_state;
mod share;
mod waiting_room;
mod words;

pub use cell::{AtomicPlace, PlaceCell};
pub use next::next_admitted;
pub use place::Place;
pub use reported_state::{ReportedState, Stand};
pub use share::is_below_share;
pub use waiting_room::WaitingRoom;
