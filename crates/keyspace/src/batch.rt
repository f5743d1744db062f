//! Batches: transactions from one commit proxy, with their versions.

ghost use Rattle.std.specs.Prelude.{◌≡◌, ◌≤◌, ◌<◌, ◌≤ℤ◌, ◌<ℤ◌, ◌↔◌, pos, negsuc, length, vec_len};
ghost use Rattle.std.specs.Prelude.{IfOk, IsErrOf, IsTrue};
ghost use Rattle.keyspace.specs.Versions.{AreVersions};
ghost use Rattle.keyspace.specs.declared.batch.TheConstants.{MAX_TXNS};

use crate::error::LimitError;
use crate::txn::Txn;
use crate::txns::Txns;
use std::alloc::Global;

/// The greatest number of transactions in a batch, this project's own limit.
pub const MAX_TXNS: usize = 4_096;

const _: () = prove!(MAX_TXNS == 4_096);

/// A batch of transactions from one commit proxy: `ResolveTransactionBatchRequest` of FoundationDB
/// 7.1.
#[derive(Debug, Drop)]
pub struct Batch {
    /// The version of the previous batch on the chain, -1 or more and below `version`.
    pub previous: i64,
    /// The commit version of all its transactions, 0 or more.
    pub version: i64,
    /// The proxy's last received version, -1 or more and below `version`. Replies up to this
    /// version have arrived.
    pub received: i64,
    /// The transactions, at most [`MAX_TXNS`], in the order in which they are judged.
    pub txns: Txns,
    ghost natural: { pos 0 ≤ℤ version },
    ghost previous_from: { negsuc 0 ≤ℤ previous },
    ghost rises: { previous <ℤ version },
    ghost received_from: { negsuc 0 ≤ℤ received },
    ghost received_before: { received <ℤ version },
    ghost few: { length txns ≤ MAX_TXNS },
}

impl Batch {
    /// Creates a batch of transactions, in the order in which they are to be judged.
    pub fn new(previous: i64, version: i64, received: i64, txns: Txns) -> Self
        requires previous_from { negsuc 0 ≤ℤ previous }
        requires rises { previous <ℤ version }
        requires received_from { negsuc 0 ≤ℤ received }
        requires received_before { received <ℤ version }
        requires few { length txns ≤ MAX_TXNS }
        ensures previous { result.previous ≡ previous }
        ensures version { result.version ≡ version }
        ensures received { result.received ≡ received }
        ensures txns { result.txns ≡ txns }
    {
        Batch {
            previous,
            version,
            received,
            txns,
        }
    }

    /// Puts transactions together in this order, and creates a batch of them, or returns an error
    /// if it is outside its limits. The error is [`LimitError::Version`] if a version is outside
    /// its limits, else [`LimitError::Count`] if there are more than [`MAX_TXNS`] transactions.
    /// Otherwise it is [`LimitError::Memory`]: an allocation failed, or the keys have more than 4
    /// GiB.
    pub fn checked(
        alloc: Global,
        previous: i64,
        version: i64,
        received: i64,
        txns: Vec<Txn>,
    ) -> Result<Self, LimitError>
        ensures previous { IfOk result (λ batch. batch.previous ≡ previous) }
        ensures version { IfOk result (λ batch. batch.version ≡ version) }
        ensures received { IfOk result (λ batch. batch.received ≡ received) }
        ensures txns { IfOk result (λ batch. batch.txns ≡ txns.items) }
        ensures beyond_version { IsErrOf result LimitError.Version
            ↔ (¬ AreVersions previous version received) }
        ensures beyond_count { IsErrOf result LimitError.Count ↔
            AreVersions previous version received × (MAX_TXNS < vec_len txns) }
    {
        if !are_versions(previous, version, received) {
            return Err(LimitError::Version);
        }
        if txns.len() > MAX_TXNS {
            return Err(LimitError::Count);
        }
        let txns = Txns::new(alloc, txns)?;
        Ok(Batch::new(previous, version, received, txns))
    }
}

// Whether a batch may have these versions.
fn are_versions(previous: i64, version: i64, received: i64) -> bool
    ensures versions { IsTrue result ↔ AreVersions previous version received }
{
    -1 <= previous && previous < version && -1 <= received && received < version
}
