//! The steps of the two ends, and how a token is cut and joined.
ghost use Rattle.lane.specs.Ring.{that_takes, that_sends, that_does_both, idle};
ghost use Rattle.lane.specs.Steps.{HeadLooked, Claimed, Sent, Closed, TailFound, Found, Took};

use super::Known;
use atomic_table::{Join, Play, Split};

/// The port loads head.
pub(crate) struct LooksAtHead;

impl<T> Play<Option<T>, Known<T>> for LooksAtHead {
    ghost then = { λ step old found new. HeadLooked step.slots old found new };
}

/// The port loads its own word, and holds the slot of the next item.
pub(crate) struct Claims;

impl<T> Play<Option<T>, Known<T>> for Claims {
    ghost then = { λ step old _ new. Claimed step.slots old new };
}

/// The port stores tail, one larger, and gives the slot back.
pub(crate) struct StoresTail;

impl<T> Play<Option<T>, Known<T>> for StoresTail {
    ghost then = { λ step old _ new. Sent step.slots old new };
}

/// The port stores tail with the closing bit.
pub(crate) struct Closes;

impl<T> Play<Option<T>, Known<T>> for Closes {
    ghost then = { λ _ old _ new. Closed old new };
}

/// The intake loads tail.
pub(crate) struct LooksAtTail;

impl<T> Play<Option<T>, Known<T>> for LooksAtTail {
    ghost then = { λ step old found new. TailFound step.slots old found new };
}

/// The intake loads its own word, and holds the slot of the next item.
pub(crate) struct Finds;

impl<T> Play<Option<T>, Known<T>> for Finds {
    ghost then = { λ step old _ new. Found step.slots old new };
}

/// The intake stores head, one larger, and gives the slot back.
pub(crate) struct StoresHead;

impl<T> Play<Option<T>, Known<T>> for StoresHead {
    ghost then = { λ step old _ new. Took step.slots old new };
}

/// A token that both sends and takes is cut into the two.
pub(crate) struct Apart;

impl<T> Split<Known<T>> for Apart {
    ghost left = { that_takes };

    ghost right = { that_sends };
}

/// The token that takes takes in the one that sends.
pub(crate) struct Together;

impl<T> Join<Known<T>> for Together {
    ghost both = { that_does_both };

    ghost spent = { idle };
}
