//! What a proxy receives for a batch.

use crate::reply::Reply;

/// What a proxy receives for a batch. FoundationDB 7.1 has the first alone, and sends nothing
/// instead of the others, which are this project's own.
#[derive(Debug, Drop)]
pub enum Answer {
    /// The reply to the batch.
    Reply(Reply),
    /// The batch of this version is a repeat whose reply was given up: no reply will come.
    Never(i64),
    /// The batch of this version was still held when all input had ended.
    Held(i64),
}
