//! The words by which a place goes from one thread to another.

ghost use Rattle.std.specs.Prelude.{◌≡◌};
ghost use Rattle.replay_workers.specs.PlaceWords.{Carries};
ghost use Rattle.replay_workers.specs.declared.shares.place.Place.{Place as PlaceValue};

use super::place::Place;
use super::reported_state::Stand;

/// The state of a place whose proxy reads, sends or takes answers.
pub const GOES: u64 = 0;

/// The state of a place whose proxy stands. Only then the other two words are read.
pub const STANDS: u64 = 1;

/// The state of a place whose proxy's batch is admitted.
pub const ADMITTED: u64 = 2;

/// The state of a place whose proxy sends no more.
pub const CLOSED: u64 = 3;

/// The words that carry a place: its state, how many answers the proxy has received, and the
/// previous version of the batch with which it stands.
#[derive(Clone, Copy)]
pub struct Words {
    pub state: u64,
    pub answered: u64,
    pub previous: i64,
}

impl Words {
    /// Returns the words that carry the place.
    pub fn of(place: Place) -> Words
        ensures carries { Carries result place }
    {
        let state = match place {
            Place::Goes => GOES,
            Place::Stands(stand) => {
                return Words {
                    state: STANDS,
                    answered: stand.answered,
                    previous: stand.previous,
                };
            }
            Place::Admitted => ADMITTED,
            Place::Closed => CLOSED,
        };
        Words {
            state,
            answered: 0,
            previous: 0,
        }
    }

    /// Returns the place that the words carry. No other state than the four is ever stored.
    pub fn place(self) -> Place
        ensures carried { (place : PlaceValue) → Carries self place → result ≡ place }
    {
        match self.state {
            STANDS => Place::Stands(Stand {
                previous: self.previous,
                answered: self.answered,
            }),
            ADMITTED => Place::Admitted,
            CLOSED => Place::Closed,
            _ => Place::Goes,
        }
    }
}
