//! The memory in which the answers of all shards are combined.

ghost use Rattle.std.specs.Prelude.{◌≡◌, ◌≤◌, [], IfOk, vec_capacity};

use limits::Stop;
use replay_output::{Line, ProxyFailure};
use std::alloc::{AllocError, Global};

/// Empty vectors in which the answers of all shards are combined. Their memory is taken before the
/// runs, so that a failure isn't lost after them.
#[derive(Drop)]
pub struct Room {
    /// For the lines of each proxy.
    pub lines: Vec<Vec<Line>>,
    /// For what failed of each proxy.
    pub failures: Vec<ProxyFailure>,
    /// For what failed of one proxy in each shard.
    pub failures_by_shard: Vec<ProxyFailure>,
    /// For the stop of each shard.
    pub stops: Vec<Option<Stop>>,
}

impl Room {
    /// Creates the room for that many shards and proxies.
    pub fn new(alloc: Global, shard_count: usize, proxies: usize) -> Result<Self, AllocError>
        ensures lines { IfOk result (λ room. room.lines.items ≡ []) }
        ensures failures { IfOk result (λ room. room.failures.items ≡ []) }
        ensures by_shard { IfOk result (λ room. room.failures_by_shard.items ≡ []) }
        ensures stops { IfOk result (λ room. room.stops.items ≡ []) }
        ensures lines_room { IfOk result (λ room. proxies ≤ vec_capacity room.lines) }
        ensures failures_room { IfOk result (λ room. proxies ≤ vec_capacity room.failures) }
        ensures shards_room { IfOk result
            (λ room. shard_count ≤ vec_capacity room.failures_by_shard) }
        ensures stops_room { IfOk result (λ room. shard_count ≤ vec_capacity room.stops) }
    {
        Ok(Room {
            lines: Vec::with_capacity(alloc, proxies)?,
            failures: Vec::with_capacity(alloc, proxies)?,
            failures_by_shard: Vec::with_capacity(alloc, shard_count)?,
            stops: Vec::with_capacity(alloc, shard_count)?,
        })
    }
}
