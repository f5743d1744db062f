//! Laws about keys and ranges. Each is the contract of a function with an empty body.

ghost use Rattle.keys.specs.declared.range.Range.{Range};
ghost use Rattle.keys.specs.Laws.{KeyHeadsDetermineOrder, RestsDetermineOrder, MeetByEnds};
ghost use Rattle.keys.specs.Laws.{RunsDetermineMeeting};
ghost use Rattle.keys.specs.Laws.{EmptyHasNoGap, RunsAreWithin};

/// The key with the lesser head comes first. Keys with the same head have the same first eight
/// bytes, where missing ones count as zeros.
pub fn key_heads()
    ensures order { KeyHeadsDetermineOrder }
{}

/// Keys with a common prefix are in the order of the bytes after it.
pub fn common_prefixes()
    ensures order { RestsDetermineOrder }
{}

/// Two ranges overlap exactly if neither is empty and each begins before the other ends.
pub fn meeting()
    ensures by_ends { (a b : Range) → MeetByEnds a b }
{}

/// Ranges overlap exactly if their runs have a gap in common, where the keys have the begins of
/// those ranges that aren't empty.
pub fn runs()
    ensures meeting { RunsDetermineMeeting }
    ensures empty { EmptyHasNoGap }
    ensures within { RunsAreWithin }
{}
