//! Laws of runs and of the scan, each the contract of a function that does nothing.

ghost use Rattle.conflict.specs.Written.{RunsDetermineOverlap};
ghost use Rattle.conflict.specs.InBatch.{HistoryFirst};
ghost use Rattle.conflict.specs.Unknown.{HitsCovered, CommitsCovered, HitsBelow, HitsFromOn};

/// A range overlaps one of a list exactly if its run and the run of one of these have a gap in
/// common. The gaps are between keys that include the begins of all ranges that aren't empty.
pub fn runs()
    ensures overlap { RunsDetermineOverlap }
{
    keys::laws::runs();
}

/// The plain scan may ask the history for all transactions first, and then go through the batch in
/// order.
pub fn history_first()
    ensures scan { HistoryFirst }
{}

/// One write of every key represents a history that isn't known. It hits what any history up to its
/// version hits: each read range with a snapshot below the version, unless that is empty. It hits
/// no other.
pub fn unknown_history()
    ensures covered { HitsCovered }
    ensures commits { CommitsCovered }
    ensures below { HitsBelow }
    ensures from_on { HitsFromOn }
{}
