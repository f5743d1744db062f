//! Why replies aren't combined, and the number by which C sees it.

ghost use Rattle.std.specs.Prelude.{◌≡◌};
ghost use Rattle.archcaraway_c.specs.ShardFrames.{combine_status, misfit_status, combine_needed};
ghost use Rattle.archcaraway_c.specs.ShardFrames.{bad_shard};

use crate::refusal::Refusal;
use shards::Misfit;
use wire::WireError;

/// Why the replies of shards aren't combined.
#[derive(Clone, Copy, Debug, PartialEq, Eq)]
pub enum CombineRefusal {
    /// The frame of the batch is none, or the combined reply can't be written: by this refusal.
    Frame(Refusal),
    /// The reply of this shard isn't a frame: its first fault.
    Reply(usize, WireError),
    /// There are bytes after the reply of the last shard.
    Behind,
    /// The reply of this shard is the first that isn't one to the batch.
    Misfit(usize, Misfit),
}

impl CombineRefusal {
    /// Returns the number by which C sees the refusal.
    pub fn status(&self) -> i32
        ensures status { result ≡ combine_status self.now }
    {
        match self {
            CombineRefusal::Frame(refusal) => refusal.status(),
            CombineRefusal::Reply(_, fault) => Refusal::Wire(*fault).status(),
            CombineRefusal::Behind => Refusal::Behind.status(),
            CombineRefusal::Misfit(_, cause) => status_of_misfit(*cause),
        }
    }

    /// Returns how many bytes the buffer needs if it is too small, else 0.
    pub fn needed(&self) -> usize
        ensures needed { result ≡ combine_needed self.now }
    {
        match self {
            CombineRefusal::Frame(refusal) => refusal.needed(),
            _ => 0,
        }
    }

    /// Returns the shard whose reply is refused, or the number of shards.
    pub fn bad_shard(&self, count: usize) -> usize
        ensures bad { result ≡ bad_shard count self.now }
    {
        match self {
            CombineRefusal::Reply(shard, _) | CombineRefusal::Misfit(shard, _) => *shard,
            _ => count,
        }
    }
}

fn status_of_misfit(cause: Misfit) -> i32
    ensures status { result ≡ misfit_status cause }
{
    match cause {
        Misfit::Version => 311,
        Misfit::Count => 312,
        Misfit::Place => 313,
    }
}
