//! What a turn of the resolver answers, and what is found at the end.

ghost use Rattle.std.specs.Prelude.{◌≡◌, ◌↔◌, true, None};

use limits::Stop;

/// What a turn of the resolver did.
#[derive(Clone, Copy, Debug, PartialEq, Eq)]
pub enum Turn {
    /// It took a batch of this proxy.
    Took(usize),
    /// It took none, and it isn't done.
    Idle,
    /// All request lanes have ended, and the reply lanes are closed.
    Done,
}

/// What [`settle`](crate::Resolver::settle) finds.
#[derive(Clone, Copy, Debug, PartialEq, Eq)]
pub struct Account {
    /// No stop was met, the reply lanes are closed, and each client has taken every answer.
    pub complete: bool,
    /// The stop that was met, if any.
    pub stop: Option<Stop>,
}

impl Account {
    /// Puts an account together. It is complete if no stop was met, the reply lanes are closed, and
    /// every answer has been taken.
    pub(crate) fn new(stop: Option<Stop>, closed: bool, all_taken: bool) -> Self
        ensures complete { (result.complete ≡ true)
            ↔ ((stop ≡ None) × (closed ≡ true) × (all_taken ≡ true)) }
        ensures stop { result.stop ≡ stop }
    {
        Account {
            complete: stop.is_none() && closed && all_taken,
            stop,
        }
    }
}
