//! Explanations.

ghost use Rattle.std.specs.Prelude.{◌≡◌};

use keys::RangeRef;
use std::marker::Model;

/// A write range of a committed transaction, with its origin. The keys are borrowed.
#[derive(Debug, Drop)]
pub struct WrittenRef<'a> {
    /// The number of the proxy that sent the batch.
    pub proxy: usize,
    /// The version of the batch.
    pub version: i64,
    /// The index of the transaction in the batch.
    pub txn: usize,
    /// The range that it wrote.
    pub range: RangeRef<'a>,
}

impl<'a> Model for WrittenRef<'a> {
    ghost use Rattle.explanations.specs.Written.{Written};

    ghost Value = { Written };

    ghost view = { λ w. record {
      proxy = w.proxy;
      version = w.version;
      txn = w.txn;
      range = w.range;
    } };
}

/// Why a read range is in conflict.
#[derive(Debug, Drop)]
pub struct Explanation<'a> {
    /// The newest write that it conflicts with: that of the highest version, and in one batch that
    /// of the last transaction. If a transaction has several such write ranges, the last of them.
    pub newest: WrittenRef<'a>,
    /// The number of further writes that it conflicts with, or `usize::MAX` if there are more.
    pub further: usize,
}
