//! What the age of a snapshot means.

ghost use Rattle.batches_report.specs.Ages.{WindowsCoverAges};

/// A window that covers the age of a snapshot, and no other, leaves its transaction in time.
pub fn windows_cover_ages()
    ensures law { WindowsCoverAges }
{}
