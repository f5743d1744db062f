//! A conflict set: the second of two batches is judged after what the first commits.

ghost use Rattle.std.specs.Prelude.{◌<ℤ◌, [], IfOk};
ghost use Rattle.keyspace.specs.declared.TheConstants.{WINDOW};
ghost use Rattle.keyspace.specs.Judged.{Judged};
ghost use Rattle.keyspace.specs.Writes.{writes_of};

use conflict::{ConflictSet, SetStop};
use keyspace::{Batch, Reply, WINDOW};
use std::alloc::Global;
use stepmap::MAX_LIMIT;

/// Resolves two batches with a new set. Each reply is right after the writes that the batches
/// before it commit.
pub fn judge_two(alloc: Global, first: &Batch, second: &Batch) -> Result<(Reply, Reply), SetStop>
    requires rising { first.now.version <ℤ second.now.version }
    ensures first { IfOk result (λ replies. Judged WINDOW [] first.now replies.0) }
    ensures second { IfOk result (λ replies. Judged WINDOW (writes_of first.now replies.0)
        second.now replies.1) }
{
    let mut set = ConflictSet::new(alloc, WINDOW, MAX_LIMIT)?;
    let one = set.resolve(first)?;
    let two = set.resolve(second)?;
    Ok((one, two))
}
