//! What the batch that starts a chain means.

ghost use Rattle.batches_tasks.specs.Opening.{MeetsEveryRange};

/// The range that an opening batch writes overlaps every range that isn't empty. So a read below
/// the version conflicts, unless its range is empty.
pub fn opening_meets_every_range()
    ensures law { MeetsEveryRange }
{}
