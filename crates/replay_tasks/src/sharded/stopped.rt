//! The stop of a shard, and the line that names the shard.

ghost use Rattle.std.specs.Prelude.{◌≡◌, ◌<◌, ◌⊎◌, None, OnErr, OnOk, option_map};
ghost use Rattle.std.specs.Io.KnownBytes.{Appends};
ghost use Rattle.replay_tasks.specs.Replayed.{ending_of};
ghost use Rattle.replay_tasks.specs.Sharded.{shard_line, shard_lines};

use crate::met::Met;
use itoa::Buffer;
use replay_output::{Ending, Status};
use replay_shards::ShardStop;
use wire::{Failed, Sink, write_all};

/// Returns how the runs of all shards have ended: with the stop of the first shard that met one, or
/// complete if each of them is.
pub fn ending_of(complete: bool, stop: Option<ShardStop>) -> Ending
    ensures ending { result ≡ ending_of complete (option_map (λ met. met.stop) stop) }
{
    match stop {
        Some(met) => Ending::Stopped(met.stop),
        None => Ending::new(complete, None),
    }
}

/// Returns what the runs of all shards met: the stop of the first shard that met one. They have no
/// version in common.
pub fn met_of(stop: Option<ShardStop>, output_failed: bool) -> Met
    ensures stop { result.stop ≡ option_map (λ met. met.stop) stop }
    ensures version { result.version ≡ None }
    ensures output_failed { result.output_failed ≡ output_failed }
{
    let stop = match stop {
        Some(met) => Some(met.stop),
        None => None,
    };
    Met {
        stop,
        version: None,
        output_failed,
    }
}

/// Prints the line that names the shard of a stop, if one was met, after that of the stop. Returns
/// the status: that of a stop is a failure, whether or not the line is written. Takes no memory.
pub fn print_stopped<E: Sink>(error: &mut E, stop: Option<ShardStop>, status: Status) -> Status
    ensures status { result ≡ status }
    ensures line { (E.failures error.old < E.failures error.new)
        ⊎ Appends (E.given error.old) (E.given error.new) (shard_lines stop) }
    ensures none { stop ≡ None → (E.given error.new ≡ E.given error.old)
        × (E.failures error.new ≡ E.failures error.old) }
{
    if let Some(met) = stop {
        let _ = print_shard(error, met.shard);
    }
    status
}

fn print_shard<E: Sink>(error: &mut E, shard: usize) -> Result<(), Failed>
    ensures text { OnOk result (Appends (E.given error.old) (E.given error.new)
        (shard_line shard)) }
    ensures ok { OnOk result (E.failures error.new ≡ E.failures error.old) }
    ensures failed { OnErr result (E.failures error.old < E.failures error.new) }
{
    let mut buffer = Buffer::new();
    write_all(error, b"replay: shard ")?;
    write_all(error, buffer.format(shard).as_bytes())?;
    write_all(error, b"\n")
}
