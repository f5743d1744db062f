//! What failed of all shards together.

ghost use Rattle.std.specs.Prelude.{◌≡◌, MatchOption, None};
ghost use Rattle.std.specs.List.{All};
ghost use Rattle.replay_shards.specs.Failures.{IsFailureTogether, IsFirstStop};

use limits::Stop;
use replay_output::ProxyFailure;

/// The stop of the first shard that met one.
#[derive(Clone, Copy, Debug, PartialEq, Eq)]
pub struct ShardStop {
    pub stop: Stop,
    /// The number of the shard, from 0.
    pub shard: usize,
}

/// Returns what failed of a proxy, given what failed of it in each shard: the first fault in the
/// order of the shards, and a loss if a shard has one.
#[tactic(auto, using(crate::proofs::FirstOnes::fault_next, crate::proofs::FirstOnes::loss_next))]
pub fn failure_together(each: &[ProxyFailure]) -> ProxyFailure
    ensures failure { IsFailureTogether each.now result }
{
    let mut fault = None;
    let mut lost = false;
    for own in each {
        fault = fault.or(own.fault);
        lost = lost || own.lost;
    }
    ProxyFailure { fault, lost }
}

/// Returns the stop of the first shard that met one.
pub fn first_stop(stops: &[Option<Stop>]) -> Option<ShardStop>
    ensures first { MatchOption result (All (λ stop. stop ≡ None) stops.now)
        (IsFirstStop stops.now) }
{
    for (shard, own) in stops.iter().enumerate() {
        if let Some(stop) = own {
            return Some(ShardStop { stop: *stop, shard });
        }
    }
    None
}
