//! Why there is no report.

use std::alloc::{AllocError, AllocFailed};
use thiserror::Error;

/// Why there is no report.
#[derive(Clone, Copy, Debug, PartialEq, Eq, Error)]
pub enum ReportError {
    /// The reply of this version has another number of verdicts than its batch has transactions.
    #[error("the reply of version {0} doesn't fit its batch")]
    Unfit(i64),
    /// A range conflicts with more transactions than 64 bits can count.
    #[error("a range conflicts too often")]
    Count,
    #[error("memory was refused")]
    Memory,
}

impl From<AllocError> for ReportError {
    fn from(_refused: AllocError) -> ReportError {
        ReportError::Memory
    }
}

impl<T: Drop> From<AllocFailed<T>> for ReportError {
    fn from(_refused: AllocFailed<T>) -> ReportError {
        ReportError::Memory
    }
}
