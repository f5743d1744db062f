//! The rules of a place in the waiting room: what it holds of its proxy, and what each side stores
//! there.

ghost use Rattle.std.specs.Prelude.{◌≡◌, ◌≢◌, ◌⊎◌, ◌↔◌, IsTrue, IsFalse, Some, None};
ghost use Rattle.replay_workers.specs.declared.shares.reported_state.Stand.{Stand as StandValue};

use super::reported_state::{ReportedState, Stand};

/// What a place in the waiting room holds of its proxy.
#[derive(Clone, Copy, Debug, PartialEq, Eq)]
pub enum Place {
    /// The proxy reads, sends or takes answers.
    Goes,
    /// The proxy waits with a batch, since its share is used up.
    Stands(Stand),
    /// The batch with which the proxy waits is admitted, and the proxy doesn't know it yet.
    Admitted,
    /// The proxy sends no more.
    Closed,
}

impl Place {
    /// The proxy asks whether it may send the batch with which it stands. Returns what it stores,
    /// if anything, and whether it may send.
    ///
    /// An admission serves one batch: a proxy that may send goes, and has to ask again for its next
    /// batch.
    pub fn ask(self, stand: Stand) -> (Option<Place>, bool)
        ensures admitted { IsTrue result.1 ↔ (self ≡ Place.Admitted) }
        ensures goes { IsTrue result.1 → result.0 ≡ Some Place.Goes }
        ensures waits { IsFalse result.1 → (result.0 ≡ Some (Place.Stands stand))
            ⊎ ((result.0 ≡ None) × (self ≡ Place.Stands stand)) }
    {
        match self {
            Place::Admitted => (Some(Place::Goes), true),
            Place::Stands(before) if before == stand => (None, false),
            _ => (Some(Place::Stands(stand)), false),
        }
    }

    /// The turning thread admits the batch with which the proxy stands. Returns what it stores:
    /// nothing if the proxy doesn't stand.
    pub fn admit(self) -> Option<Place>
        ensures admitted { (stand : StandValue) → self ≡ Place.Stands stand
            → result ≡ Some Place.Admitted }
        ensures others { ((stand : StandValue) → self ≢ Place.Stands stand) → result ≡ None }
    {
        match self {
            Place::Stands(_) => Some(Place::Admitted),
            _ => None,
        }
    }

    /// Returns the state of the proxy that this place shows the turning thread.
    pub fn reported_state(self) -> ReportedState
        ensures stands { (stand : StandValue)
            → (result ≡ ReportedState.Stands stand) ↔ (self ≡ Place.Stands stand) }
        ensures closed { (result ≡ ReportedState.Closed) ↔ (self ≡ Place.Closed) }
        ensures goes { (result ≡ ReportedState.Goes)
            ↔ ((self ≡ Place.Goes) ⊎ (self ≡ Place.Admitted)) }
    {
        match self {
            Place::Goes | Place::Admitted => ReportedState::Goes,
            Place::Stands(stand) => ReportedState::Stands(stand),
            Place::Closed => ReportedState::Closed,
        }
    }
}
