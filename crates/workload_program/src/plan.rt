//! What a file is to hold.

ghost use Rattle.std.specs.Prelude.{◌≤◌};
ghost use Rattle.workload_program.specs.declared.plan.TheConstants.{MAX_BATCHES, MAX_TRANSACTIONS};

use crate::shape::Shape;

/// The most batches of a file.
pub const MAX_BATCHES: u32 = 65_536;

/// The most transactions of a batch.
pub const MAX_TRANSACTIONS: usize = 2_500;

/// What a file is to hold, each number within its limits.
#[derive(Clone, Copy, Debug, PartialEq, Eq)]
pub struct Plan {
    pub shape: Shape,
    /// How many batches there are.
    pub batches: u32,
    /// How many transactions each batch has.
    pub transactions: usize,
    ghost least_batches: { 1 ≤ batches },
    ghost most_batches: { batches ≤ MAX_BATCHES },
    ghost least_transactions: { 1 ≤ transactions },
    ghost most_transactions: { transactions ≤ MAX_TRANSACTIONS },
}
