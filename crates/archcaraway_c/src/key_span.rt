//! The positions of the keys of a range among the bytes that C gives.

/// The positions of the keys of a range among bytes. The two may share bytes. `archcaraway_span` of
/// `library/archcaraway.c`.
#[repr(C)]
#[derive(Clone, Copy, Debug, PartialEq, Eq)]
pub struct KeySpan {
    /// The index of the first byte of the begin.
    pub begin: usize,
    pub begin_length: usize,
    /// The index of the first byte of the end.
    pub end: usize,
    pub end_length: usize,
}
