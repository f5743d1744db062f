//! A transaction that is made by hand.

ghost use Rattle.std.specs.Prelude.{◌≡◌, ◌≤◌, ◌<◌, ◌≤ℤ◌, ◌<ℤ◌, ◌↔◌, ◌⊎◌, pos, length, IfOk};
ghost use Rattle.std.specs.Prelude.{IsErrOf};
ghost use Rattle.keyspace.specs.declared.txn.TheConstants.{MAX_RANGES};

use crate::error::LimitError;
use crate::sequence::Sequence;
use keys::Range;

/// The greatest number of read ranges of a transaction, and of write ranges: this project's own
/// limit.
pub const MAX_RANGES: usize = 1_024;

const _: () = prove!(MAX_RANGES == 1_024);

/// A transaction to be judged: `CommitTransactionRef` of FoundationDB 7.1, without its mutations.
#[derive(Debug, Drop)]
pub struct Txn {
    /// The read version of the transaction, 0 or more.
    pub snapshot: i64,
    /// Whether the transaction asks for the places of its read ranges in conflict.
    pub marked: bool,
    /// The read conflict ranges, at most [`MAX_RANGES`], in the order sent.
    pub reads: Sequence<Range>,
    /// The write conflict ranges, at most [`MAX_RANGES`], in the order sent.
    pub writes: Sequence<Range>,
    ghost natural: { pos 0 ≤ℤ snapshot },
    ghost few_reads: { length reads ≤ MAX_RANGES },
    ghost few_writes: { length writes ≤ MAX_RANGES },
}

impl Txn {
    /// Creates a transaction, with its ranges in the order sent.
    pub fn new(snapshot: i64, marked: bool, reads: Sequence<Range>, writes: Sequence<Range>) -> Self
        requires natural { pos 0 ≤ℤ snapshot }
        requires few_reads { length reads ≤ MAX_RANGES }
        requires few_writes { length writes ≤ MAX_RANGES }
        ensures snapshot { result.snapshot ≡ snapshot }
        ensures marked { result.marked ≡ marked }
        ensures reads { result.reads ≡ reads }
        ensures writes { result.writes ≡ writes }
    {
        Txn {
            snapshot,
            marked,
            reads,
            writes,
        }
    }

    /// Creates a transaction, with its ranges in the order sent, or returns an error if it is
    /// outside its limits. The snapshot is looked at first: [`LimitError::Version`] if it is
    /// negative, else [`LimitError::Count`] if there are more than [`MAX_RANGES`] read ranges or
    /// write ranges.
    pub fn checked(
        snapshot: i64,
        marked: bool,
        reads: Sequence<Range>,
        writes: Sequence<Range>,
    ) -> Result<Self, LimitError>
        ensures snapshot { IfOk result (λ txn. txn.snapshot ≡ snapshot) }
        ensures marked { IfOk result (λ txn. txn.marked ≡ marked) }
        ensures reads { IfOk result (λ txn. txn.reads ≡ reads) }
        ensures writes { IfOk result (λ txn. txn.writes ≡ writes) }
        ensures beyond_version { IsErrOf result LimitError.Version ↔ snapshot <ℤ pos 0 }
        ensures beyond_count { IsErrOf result LimitError.Count ↔
            pos 0 ≤ℤ snapshot × (MAX_RANGES < length reads ⊎ MAX_RANGES < length writes) }
        ensures never_memory { ¬ IsErrOf result LimitError.Memory }
    {
        if snapshot < 0 {
            return Err(LimitError::Version);
        }
        if reads.len() > MAX_RANGES || writes.len() > MAX_RANGES {
            return Err(LimitError::Count);
        }
        Ok(Txn::new(snapshot, marked, reads, writes))
    }
}
