//! What a stream of clips has given, over all its calls. The function does nothing: its contract is
//! the law.

ghost use Rattle.std.specs.Prelude.{◌≡◌, List, Some};
ghost use Rattle.keyspace.specs.declared.batch.Batch.{Batch as BatchValue};
ghost use Rattle.serial.specs.Shards.{Shard};
ghost use Rattle.wire.specs.Batches.{GivesEach};
ghost use Rattle.replay_shards.specs.declared.clips.Clips.{Clips};
ghost use Rattle.replay_shards.specs.Clips.{GaveClips, GivesClip, shard_of_clips};

use wire::Source;

/// What a stream has given are the clips of the batches of the file, one by one and in order, and
/// its notes are those of these batches.
pub fn streams_give_clips<S: Source>()
    ensures clips { (shard : Shard) (first last : Clips S) (clips : List BatchValue)
        → shard_of_clips first ≡ Some shard
        → GivesEach (GivesClip S.remaining) first last clips
        → GaveClips S.remaining shard first last clips }
{}
