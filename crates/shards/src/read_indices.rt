//! The indices of the read ranges of a clipped batch.

ghost use Rattle.std.specs.Prelude.{◌≡◌, ◌<◌, ◌↔◌, ◌∷◌, [], Some, length, slice_get, slice_index};
ghost use Rattle.std.specs.Prelude.{IsTrue, All};
ghost use Rattle.keyspace.specs.declared.txn.TheConstants.{MAX_RANGES};
ghost use Rattle.shards.specs.ReadIndices.{parts_from, AreIndices};

use std::marker::Model;

/// For each transaction of a clipped batch, the indices of its read ranges in the transaction as it
/// was sent, strictly increasing. Contracts see a list per transaction.
#[derive(Debug, Drop)]
pub struct ReadIndices {
    // Those of all transactions, in sequence.
    indices: Vec<u16>,
    // The end index of those of each transaction.
    ends: Vec<usize>,
}

impl Model for ReadIndices {
    ghost use Rattle.std.specs.Prelude.{List, ℕ};
    ghost use Rattle.shards.specs.ReadIndices.{parts_from, AreIndices};

    ghost Value = { List (List ℕ) };

    ghost view = { λ r. parts_from 0 r.indices.items r.ends.items };

    ghost invariant = { λ r. AreIndices r.indices.items r.ends.items };
}

impl ReadIndices {
    // Takes the indices of all transactions, and where those of each end.
    pub(crate) fn new(indices: Vec<u16>, ends: Vec<usize>) -> Self
        requires fit { AreIndices indices.items ends.items }
        ensures indices { result ≡ parts_from 0 indices.items ends.items }
    {
        ReadIndices { indices, ends }
    }

    /// Returns the number of transactions.
    pub fn len(&self) -> usize
        ensures count { result ≡ length self.now }
    {
        self.ends.len()
    }

    /// Returns `true` if there are no transactions.
    pub fn is_empty(&self) -> bool
        ensures empty { IsTrue result ↔ (self.now ≡ []) }
    {
        self.len() == 0
    }

    /// Returns the indices of the transaction at the index, each below
    /// [`MAX_RANGES`](keyspace::MAX_RANGES).
    pub fn txn(&self, index: usize) -> &[u16]
        requires within { index < length self.now }
        ensures indices { slice_get self.now index ≡ Some result.now }
        ensures below { All (λ read. read < MAX_RANGES) result.now }
    {
        let ends = self.ends.as_slice();
        &self.indices[part_start(ends, index)..ends[index]]
    }
}

// Returns where the part at the index begins, which is where the one before ends.
fn part_start(ends: &[usize], index: usize) -> usize
    requires within { index < length ends.now }
    ensures start { result ≡ slice_index (0 ∷ ends.now) index }
{
    if index == 0 { 0 } else { ends[index - 1] }
}
