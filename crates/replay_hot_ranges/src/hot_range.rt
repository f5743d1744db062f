//! Ranges with their counts.

/// A range, and the number of transactions that were rejected because of it. The keys are borrowed.
#[derive(Clone, Copy, Debug)]
pub struct HotRange<'a> {
    /// The begin key.
    pub begin: &'a [u8],
    /// The end key.
    pub end: &'a [u8],
    /// The number of transactions, 1 or more.
    pub conflicts: usize,
}

/// The ranges that conflict most, the greatest count first.
#[derive(Debug, Drop)]
pub struct Top<'a> {
    /// The read ranges in conflict.
    pub reads: Vec<HotRange<'a>>,
    /// The written ranges that they conflict with.
    pub writes: Vec<HotRange<'a>>,
}
