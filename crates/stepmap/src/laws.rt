//! Laws of step maps and lists of writes, each the contract of a function that does nothing. The
//! layer above cites these, and needs no lemmas about boundaries.

ghost use Rattle.stepmap.specs.Laws.{DeterminesHits, GreatestDetermines};
ghost use Rattle.stepmap.specs.Laws.{FewBoundaries, CountedAlong};
ghost use Rattle.stepmap.specs.Laws.{ApartWriteInTurn, UpToLater};

/// The function exceeds a number in a range exactly if a write above that number overlaps the
/// range.
pub fn hits()
    ensures exceeds { DeterminesHits }
    ensures greatest { GreatestDetermines }
{}

/// There are at most two boundaries for each live write, and one. Ranges written at or above the
/// edge count as live.
pub fn counts()
    ensures few { FewBoundaries }
    ensures along { CountedAlong }
{}

/// Ranges in order and apart, whose lengths were prepared together, may be written in sequence;
/// then all of them are written.
pub fn writing()
    ensures in_turn { ApartWriteInTurn }
    ensures later { UpToLater }
{}
