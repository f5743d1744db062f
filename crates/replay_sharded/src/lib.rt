//! The run of `replay` with several resolvers: each has a shard of the keys and a complete run of
//! all files, and their answers are combined.
//!
//! [`run_sharded`] does so over [`ShardedReaders`]: the readers of all files once per shard, the
//! split points and a gatekeeper per shard. Each shard has a thread that turns its resolver, and a
//! thread per file that clips its batches. No shard waits for another. Once all runs have ended,
//! the answers to each proxy are combined by version. [`Combined`] has their lines, what failed,
//! and the stop of the first shard that met one.
//!
//! In reading order: `sharded_run`, `readers`, `runs`, `shard_run`, `combined`, `room`. What became
//! of all files is `IsResolvedByShards`, in `specs/Sharded.antt`. The run of one shard is
//! `IsRunOfShard`, in `specs/Runs.antt`.
#![tactic(auto)]

mod combined;
mod readers;
mod room;
mod runs;
mod shard_run;
mod sharded_run;

pub use combined::{Combined, combine_runs};
pub use readers::ShardedReaders;
pub use room::Room;
pub use runs::run_shards;
pub use shard_run::ShardRun;
pub use sharded_run::run_sharded;
