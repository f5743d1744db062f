//! The readers of all shards.

ghost use Rattle.std.specs.Prelude.{◌≡◌, ◌≤◌, ◌<◌, ℕ, IfOk, List, Option, Some, length, map};
ghost use Rattle.std.specs.Prelude.{slice_get, vec_items, vec_len};
ghost use Rattle.std.specs.List.{All};
ghost use Rattle.limits.specs.declared.settings.TheConstants.{MAX_PROXIES};
ghost use Rattle.serial.specs.Shards.{Shard, shards};
ghost use Rattle.replay_sharded.specs.Files.{AreClipsOf, AreClipsOfShards, AreFresh};
ghost use Rattle.replay_sharded.specs.Files.{ReadTheFiles};

use replay_shards::{Clips, clips_each};
use shards::SplitPoints;
use std::alloc::{AllocError, Global};
use std::sync::Arc;
use wire::Source;

/// The readers of all files once per shard, the split points between the shards, and a gatekeeper
/// per shard. Each shard reads all files itself.
#[derive(Drop)]
pub struct ShardedReaders<S, G> {
    /// The readers of each shard, each at the number of its proxy.
    pub readers: Vec<Vec<S>>,
    pub points: SplitPoints,
    /// The gatekeeper of each shard.
    pub gatekeepers: Vec<Arc<G, Global>>,
    /// The number of proxies, from 1 to [`MAX_PROXIES`](limits::MAX_PROXIES).
    pub proxies: usize,
    ghost each_shard: { vec_len readers ≡ length (shards points) },
    ghost each_gatekeeper: { vec_len gatekeepers ≡ length (shards points) },
    ghost each_proxy: { All (λ own. vec_len own ≡ proxies) readers.items },
    ghost least: { 1 ≤ proxies },
    ghost most: { proxies ≤ MAX_PROXIES },
}

/// Returns the clips of all files for each shard. Reads nothing yet.
pub fn clips_of_shards<S: Source + Drop>(
    alloc: Global,
    readers: Vec<Vec<S>>,
    points: SplitPoints,
) -> Result<Vec<Vec<Clips<S>>>, AllocError>
    requires each { vec_len readers ≡ length (shards points) }
    ensures clips { IfOk result (λ each. (files : List (Option (List ℕ)))
        → All (ReadTheFiles S.remaining files) (map vec_items readers.items)
        → AreClipsOfShards S.remaining points files (map vec_items each.items)) }
    ensures fresh { IfOk result (λ each. All AreFresh (map vec_items each.items)) }
    ensures as_many { IfOk result (λ each.
        map vec_len each.items ≡ map vec_len readers.items) }
{
    let points = Arc::new(alloc, points)?;
    let mut each = Vec::with_capacity(alloc, readers.len())?;
    for own in readers {
        let shard = each.len();
        each.push_reserved(clips_of_shard(alloc, own, &points, shard)?);
    }
    Ok(each)
}

// Returns the clips of all files for one shard.
fn clips_of_shard<S: Source + Drop>(
    alloc: Global,
    readers: Vec<S>,
    points: &Arc<SplitPoints, Global>,
    shard: usize,
) -> Result<Vec<Clips<S>>, AllocError>
    requires within { shard < length (shards points.now.value) }
    ensures clips { IfOk result (λ clips. (files : List (Option (List ℕ))) (own : Shard)
        → slice_get (shards points.now.value) shard ≡ Some own
        → ReadTheFiles S.remaining files readers.items
        → AreClipsOf S.remaining files own clips.items) }
    ensures fresh { IfOk result (λ clips. AreFresh clips.items) }
    ensures as_many { IfOk result (λ clips. vec_len clips ≡ vec_len readers) }
{
    clips_each(alloc, readers, points, shard)
}
