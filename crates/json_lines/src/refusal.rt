//! Why a line is refused.

ghost use Rattle.std.specs.Prelude.{◌≡◌};
ghost use Rattle.json_lines.specs.declared.cause.Cause.TheVariants.{Memory};

use crate::cause::Cause;
use crate::place::LinePlace;
use std::alloc::{AllocError, AllocFailed};
use std::fmt;

/// Why a line is refused: which of its values is wrong, and how. As text the two follow each other,
/// as `transactions[0].reads[1]: begin is above end`.
#[derive(Debug, Drop, PartialEq, Eq)]
pub struct LineRefusal {
    pub place: LinePlace,
    pub cause: Cause,
}

impl LineRefusal {
    /// Creates a refusal of the value at the place.
    pub fn new(place: LinePlace, cause: Cause) -> Self
        ensures place { result.place ≡ place }
        ensures cause { result.cause ≡ cause }
    {
        LineRefusal { place, cause }
    }
}

impl From<AllocError> for LineRefusal {
    ghost from_gives = { λ _ refusal. refusal.cause ≡ Memory };

    fn from(_refused: AllocError) -> LineRefusal {
        LineRefusal::new(LinePlace::Line, Cause::Memory)
    }
}

impl<T: Drop> From<AllocFailed<T>> for LineRefusal {
    ghost from_gives = { λ _ refusal. refusal.cause ≡ Memory };

    fn from(_refused: AllocFailed<T>) -> LineRefusal {
        LineRefusal::new(LinePlace::Line, Cause::Memory)
    }
}

impl fmt::Display for LineRefusal {
    fn fmt<W: fmt::Write>(&self, f: &mut fmt::Formatter<W>) -> fmt::Result {
        let cause = &self.cause;
        if self.place == LinePlace::Line {
            return write!(f, "{cause}");
        }
        let place = self.place;
        write!(f, "{place}: {cause}")
    }
}

impl std::error::Error for LineRefusal {}
