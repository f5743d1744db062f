//! When a worker may send.

ghost use Rattle.std.specs.Prelude.{◌≡◌, ℕ, IsTrue};
ghost use Rattle.replay_workers.specs.declared.shares.reported_state.Stand.{Stand as StandValue};

use crate::shares::{ReportedState, Stand, WaitingRoom};

/// Says when workers may send their batches. A test holds workers back through another one.
///
/// Places count from 0, both those of the batches of a proxy and those of its answers.
pub trait Gatekeeper {
    /// Returns whether the proxy may send its batch at this place now. It is asked before each try.
    fn may_send(&self, proxy: usize, place: u64) -> bool;

    /// Tells that the proxy has taken its answer at this place.
    fn answered(&self, proxy: usize, place: u64);
}

/// Keeps shares: says whose batch is admitted when all proxies have used up their share. The
/// program's is a [`WaitingRoom`]. [`Unshared`] keeps none, for any [`Gatekeeper`].
pub trait ShareKeeper {
    // A proxy whose share is used up may send this batch nevertheless.
    ghost admits: { Self → ℕ → StandValue → Type 0 };

    /// Reports that the proxy stands with a batch ready, since its share is used up. Returns
    /// whether the batch may be sent all the same. It is asked before each try.
    fn stands(&self, proxy: usize, stand: Stand) -> bool
        ensures through { IsTrue result → admits self.now proxy stand };

    /// Tells that the proxy sends no more: it has closed its lane, or its answers have ended.
    fn closed(&self, proxy: usize);

    /// Returns the reported state of the proxy.
    fn reported_state(&self, proxy: usize) -> ReportedState;

    /// Lets the batch through with which the proxy stands.
    fn admit(&self, proxy: usize);
}

impl Gatekeeper for WaitingRoom {
    fn may_send(&self, _proxy: usize, _place: u64) -> bool
        ensures open { IsTrue result }
    {
        true
    }

    fn answered(&self, _proxy: usize, _place: u64) {}
}

impl ShareKeeper for WaitingRoom {
    ghost use Rattle.std.specs.Prelude.{⊤};

    ghost admits = { λ _ _ _. ⊤ };

    fn stands(&self, proxy: usize, stand: Stand) -> bool {
        WaitingRoom::stands(self, proxy, stand)
    }

    fn closed(&self, proxy: usize) {
        self.closes(proxy);
    }

    fn reported_state(&self, proxy: usize) -> ReportedState {
        WaitingRoom::reported_state(self, proxy)
    }

    fn admit(&self, proxy: usize) {
        WaitingRoom::admit(self, proxy);
    }
}

/// Lets every batch pass.
#[derive(Clone, Copy, Debug)]
pub struct AlwaysOpen;

impl Gatekeeper for AlwaysOpen {
    fn may_send(&self, _proxy: usize, _place: u64) -> bool
        ensures open { IsTrue result }
    {
        true
    }

    fn answered(&self, _proxy: usize, _place: u64) {}
}

/// A gatekeeper without shares: what it lets pass may be sent, however many batches are unanswered.
#[derive(Drop)]
pub struct Unshared<G>(pub G);

impl<G: Gatekeeper> Gatekeeper for Unshared<G> {
    fn may_send(&self, proxy: usize, place: u64) -> bool {
        self.0.may_send(proxy, place)
    }

    fn answered(&self, proxy: usize, place: u64) {
        self.0.answered(proxy, place);
    }
}

impl<G> ShareKeeper for Unshared<G> {
    ghost use Rattle.std.specs.Prelude.{⊤};

    ghost admits = { λ _ _ _. ⊤ };

    fn stands(&self, _proxy: usize, _stand: Stand) -> bool
        ensures open { IsTrue result }
    {
        true
    }

    fn closed(&self, _proxy: usize) {}

    fn reported_state(&self, _proxy: usize) -> ReportedState
        ensures goes { result ≡ ReportedState.Goes }
    {
        ReportedState::Goes
    }

    fn admit(&self, _proxy: usize) {}
}
