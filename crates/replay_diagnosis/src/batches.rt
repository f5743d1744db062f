//! Which versions the batches of files follow.

ghost use Rattle.std.specs.Prelude.{◌≡◌, ◌⊎◌, ◌≤ℤ◌, ◌∷◌, ◌++◌, List, [], negsuc, Some};
ghost use Rattle.std.specs.Prelude.{IfNone, IfSome};
ghost use Rattle.keyspace.specs.declared.batch.Batch.{Batch as BatchValue};
ghost use Rattle.replay_diagnosis.specs.Following.{Follows, HasLeast, NoneBegins};
ghost use Rattle.replay_diagnosis.specs.Following.{NoneFollowsBelow};

use keyspace::Batch;

// The version that the first batch of a chain follows.
pub(crate) const CHAIN_START: i64 = -1;

/// Which versions some batches follow.
#[derive(Clone, Copy, Debug, PartialEq, Eq)]
pub struct FileBatches {
    /// The least version that one of them follows. None if there is no batch.
    pub least_previous: Option<i64>,
}

impl FileBatches {
    /// No batches.
    pub fn none() -> Self
        ensures none { HasLeast [] result.least_previous }
    {
        FileBatches {
            least_previous: None,
        }
    }

    /// Adds a batch.
    pub fn add(&mut self, batch: &Batch)
        ensures added { (batches : List BatchValue) → HasLeast batches self.old.least_previous
            → HasLeast (batches ++ batch.now ∷ []) self.new.least_previous }
    {
        self.least_previous = Some(least(self.least_previous, batch.previous));
    }

    /// Adds the batches of another file.
    pub fn join(&mut self, others: &FileBatches)
        ensures joined { (batches more : List BatchValue) → HasLeast batches self.old.least_previous
            → HasLeast more others.now.least_previous
            → HasLeast (batches ++ more) self.new.least_previous }
    {
        if let Some(previous) = others.least_previous {
            self.least_previous = Some(least(self.least_previous, previous));
        }
    }

    /// Returns the least version that a batch follows, if there are batches and none follows
    /// version -1. Then no chain begins, and a resolver holds each of them.
    pub fn held_from(&self) -> Option<i64>
        ensures held { IfSome result (λ version. (batches : List BatchValue)
            → HasLeast batches self.now.least_previous → NoneBegins batches
            × Follows version batches × NoneFollowsBelow version batches) }
        ensures begun { IfNone result ((batches : List BatchValue)
            → HasLeast batches self.now.least_previous
            → (batches ≡ []) ⊎ Follows (negsuc 0) batches) }
    {
        match self.least_previous {
            Some(previous) if previous > CHAIN_START => Some(previous),
            _ => None,
        }
    }
}

// Returns the lesser of a version that was least so far, if there was one, and another.
fn least(so_far: Option<i64>, previous: i64) -> i64
    ensures so_far { IfSome so_far (λ version. result ≤ℤ version) }
    ensures previous { result ≤ℤ previous }
    ensures either { (result ≡ previous) ⊎ (so_far ≡ Some result) }
{
    match so_far {
        Some(version) if version <= previous => version,
        _ => previous,
    }
}
