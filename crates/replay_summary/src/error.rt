//! Why there is no summary.

use thiserror::Error;

/// Why there is no summary.
#[derive(Clone, Copy, Debug, PartialEq, Eq, Error)]
pub enum SummaryError {
    /// A number of the summary is beyond 64 bits.
    #[error("a number of the summary is beyond 64 bits")]
    Count,
    #[error("memory was refused")]
    Memory,
}
