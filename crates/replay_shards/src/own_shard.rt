//! The shard to which a file is clipped.

ghost use Rattle.std.specs.Prelude.{◌<◌, length};
ghost use Rattle.serial.specs.Shards.{shards};

use shards::SplitPoints;
use std::alloc::Global;
use std::sync::Arc;

/// A shard by its number, with the split points that make it.
#[derive(Drop)]
pub(crate) struct OwnShard {
    pub points: Arc<SplitPoints, Global>,
    pub number: usize,
    ghost within: { number < length (shards points.value) },
}
