//! The memory of a place, which two threads load and store.

ghost use Rattle.replay_workers.specs.declared.shares.place.Place.{Place as PlaceValue};

use super::place::Place;
use super::words::{STANDS, Words};
use std::sync::atomic::{AtomicI64, AtomicU64, Ordering};

/// The memory of a place. No clause can say what another thread has stored there. So contracts say
/// what was loaded and stored, by two relations that only these calls give.
pub trait PlaceCell {
    // A load of this cell gave the place.
    ghost has_given: { Self → PlaceValue → Type 0 };

    // The place was stored in this cell.
    ghost was_stored: { Self → PlaceValue → Type 0 };

    /// Loads the place.
    fn load(&self) -> Place
        ensures given { has_given self.now result };

    /// Stores the place.
    fn store(&self, place: Place)
        ensures stored { was_stored self.now place };
}

/// A place in three atomic words.
///
/// While the proxy is seen to stand with all its answers received, the state is the turning
/// thread's, which stores an admission alone. At all other times the words are the proxy's. So no
/// store is lost. The state is loaded first and stored last, and the previous version is stored
/// before the count of answers and loaded after it. So a previous version that is loaded is of the
/// batch of that count, or of a later batch of a proxy that has received more answers.
#[derive(Drop)]
pub struct AtomicPlace {
    state: AtomicU64,
    answered: AtomicU64,
    previous: AtomicI64,
}

impl AtomicPlace {
    /// Creates the place of a proxy that goes.
    pub fn new() -> Self {
        let words = Words::of(Place::Goes);
        AtomicPlace {
            state: AtomicU64::new(words.state),
            answered: AtomicU64::new(words.answered),
            previous: AtomicI64::new(words.previous),
        }
    }
}

impl PlaceCell for AtomicPlace {
    ghost use Rattle.std.specs.Prelude.{⊤};

    ghost has_given = { λ _ _. ⊤ };

    ghost was_stored = { λ _ _. ⊤ };

    fn load(&self) -> Place {
        let state = self.state.load(Ordering::SeqCst);
        let answered = self.answered.load(Ordering::SeqCst);
        let words = Words {
            state,
            answered,
            previous: self.previous.load(Ordering::SeqCst),
        };
        words.place()
    }

    fn store(&self, place: Place) {
        let words = Words::of(place);
        if words.state == STANDS {
            self.previous.store(words.previous, Ordering::SeqCst);
            self.answered.store(words.answered, Ordering::SeqCst);
        }
        self.state.store(words.state, Ordering::SeqCst);
    }
}
