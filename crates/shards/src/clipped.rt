//! What a shard gets of a batch.

use crate::read_indices::ReadIndices;
use keyspace::Batch;

/// A batch clipped to a shard.
#[derive(Debug, Drop)]
pub struct Clipped {
    /// The batch for the resolver of the shard: the same versions, and each transaction at its
    /// index.
    pub batch: Batch,
    /// For each of its transactions, which read ranges it has.
    pub reads: ReadIndices,
}
