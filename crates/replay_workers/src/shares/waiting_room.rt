//! The room in which proxies say that they stand, and are admitted.

ghost use Rattle.std.specs.Prelude.{◌≡◌, ◌≢◌, ◌≤◌, ◌⊎◌, length, slice_get};
ghost use Rattle.std.specs.Prelude.{IfOk, IfSome, IsTrue, IsFalse, Some};
ghost use Rattle.replay_workers.specs.declared.shares.reported_state.Stand.{Stand as StandValue};
ghost use Rattle.replay_workers.specs.declared.shares.place.Place.{Place as PlaceValue};

use super::cell::{AtomicPlace, PlaceCell};
use super::place::Place;
use super::reported_state::{ReportedState, Stand};
use std::alloc::{AllocError, Global};
use std::marker::Model;

/// The states of proxies, which report them from their threads to the thread that turns the
/// resolver. No call waits. Contracts see a room as its cells, each at its proxy's number.
///
/// A proxy's calls are [`stands`](Self::stands) and [`closes`](Self::closes), from one thread. The
/// turning thread's are [`reported_state`](Self::reported_state) and [`admit`](Self::admit), this
/// only for a proxy that is seen to stand and has received all answers that were sent to it.
#[derive(Drop)]
pub struct WaitingRoom<C = AtomicPlace> {
    cells: Vec<C>,
}

impl<C> Model for WaitingRoom<C> {
    ghost use Rattle.std.specs.Prelude.{List};

    ghost Value = { List C };

    ghost view = { λ room. room.cells.items };
}

impl WaitingRoom<AtomicPlace> {
    /// Creates a room with a place for each of `proxies` proxies, all of which go.
    pub fn new(alloc: Global, proxies: usize) -> Result<Self, AllocError>
        ensures places { IfOk result (λ room. length room ≡ proxies) }
    {
        let mut cells = Vec::with_capacity(alloc, proxies)?;
        for _ in 0..proxies {
            cells.push_reserved(AtomicPlace::new());
        }
        Ok(WaitingRoom { cells })
    }
}

impl<C: PlaceCell> WaitingRoom<C> {
    /// Says that the proxy stands, and returns whether it is admitted. The proxy repeats the call
    /// until it is, or until it has received an answer.
    ///
    /// A proxy without a place is admitted.
    pub fn stands(&self, proxy: usize, stand: Stand) -> bool
        ensures no_place { length self.now ≤ proxy → IsTrue result }
        ensures admitted { (cell : C) → slice_get self.now proxy ≡ Some cell → IsTrue result
            → C.has_given cell Place.Admitted × C.was_stored cell Place.Goes }
        ensures waits { (cell : C) → slice_get self.now proxy ≡ Some cell → IsFalse result
            → (place : PlaceValue) × C.has_given cell place × (place ≢ Place.Admitted)
            × ((place ≡ Place.Stands stand) ⊎ C.was_stored cell (Place.Stands stand)) }
    {
        let Some(cell) = self.cells.get(proxy) else {
            return true;
        };
        let (next, is_admitted) = cell.load().ask(stand);
        store_some(cell, next);
        is_admitted
    }

    /// Says that the proxy sends no more.
    pub fn closes(&self, proxy: usize)
        ensures closed { (cell : C) → slice_get self.now proxy ≡ Some cell
            → C.was_stored cell Place.Closed }
    {
        if let Some(cell) = self.cells.get(proxy) {
            cell.store(Place::Closed);
        }
    }

    /// Returns the state that the proxy reported. A proxy without a place goes.
    pub fn reported_state(&self, proxy: usize) -> ReportedState
        ensures no_place { length self.now ≤ proxy → result ≡ ReportedState.Goes }
        ensures stands { (cell : C) (stand : StandValue) → slice_get self.now proxy ≡ Some cell
            → result ≡ ReportedState.Stands stand → C.has_given cell (Place.Stands stand) }
        ensures closed { (cell : C) → slice_get self.now proxy ≡ Some cell
            → result ≡ ReportedState.Closed → C.has_given cell Place.Closed }
        ensures goes { (cell : C) → slice_get self.now proxy ≡ Some cell
            → result ≡ ReportedState.Goes → C.has_given cell Place.Goes
            ⊎ C.has_given cell Place.Admitted }
    {
        let Some(place) = self.cells.get(proxy) else {
            return ReportedState::Goes;
        };
        state_reported_by(place)
    }

    /// Admits the proxy's batch, if the proxy stands.
    pub fn admit(&self, proxy: usize)
        ensures admitted { (cell : C) → slice_get self.now proxy ≡ Some cell
            → (place : PlaceValue) × C.has_given cell place
            × ((stand : StandValue) → place ≡ Place.Stands stand
            → C.was_stored cell Place.Admitted) }
    {
        if let Some(cell) = self.cells.get(proxy) {
            store_some(cell, cell.load().admit());
        }
    }
}

// Returns the state that the cell's proxy reported.
fn state_reported_by<C: PlaceCell>(cell: &C) -> ReportedState
    ensures stands { (stand : StandValue) → result ≡ ReportedState.Stands stand
        → C.has_given cell.now (Place.Stands stand) }
    ensures closed { result ≡ ReportedState.Closed → C.has_given cell.now Place.Closed }
    ensures goes { result ≡ ReportedState.Goes
        → C.has_given cell.now Place.Goes ⊎ C.has_given cell.now Place.Admitted }
{
    cell.load().reported_state()
}

// Stores the place, if there is one.
fn store_some<C: PlaceCell>(cell: &C, place: Option<Place>)
    ensures stored { IfSome place (λ stored. C.was_stored cell.now stored) }
{
    if let Some(stored) = place {
        cell.store(stored);
    }
}
