//! The task of a command line with several resolvers, once the files of all shards are open.

ghost use Rattle.std.specs.Prelude.{◌≡◌, ◌≢◌, ◌<◌, ◌≤◌, ℕ, List, None, Option, map, true};
ghost use Rattle.std.specs.Prelude.{vec_items, vec_len};
ghost use Rattle.std.specs.List.{All};
ghost use Rattle.std.specs.Io.KnownBytes.{Keeps};
ghost use Rattle.replay_arguments.specs.Asks.{Asks};
ghost use Rattle.replay_program.specs.Program.{named_files};
ghost use Rattle.replay_tasks.specs.Replayed.{written};
ghost use Rattle.replay_tasks.specs.Sharded.{HasMetByShards};
ghost use Rattle.replay_program.specs.ShardedProgram.{FindsDifferencesByShards, IsTaskDoneByShards};
ghost use Rattle.replay_program.specs.ShardedProgram.{TaskFailsByShards};
ghost use Rattle.replay_sharded.specs.Files.{ReadTheFiles};
ghost use Rattle.replay_stream.specs.Sinks.{state_by};

use super::comparison::check_sharded;
use super::printed_answers::print_sharded;
use crate::report::RunReport;
use replay_arguments::{CommandLine, Files, Task};
use replay_output::Status;
use replay_sharded::ShardedReaders;
use replay_tasks::summarize_sharded_over;
use replay_workers::WaitingRoom;
use std::alloc::Global;
use std::sync::Wait;
use std::thread::Threads;
use wire::Sink;

/// Does the task of a command line, with these readers of its files of batches for every shard. Its
/// output goes to `out`.
pub fn run_task_sharded<R: Threads + Wait + Copy + Send + 'static, F: Files, O: Sink, E: Sink>(
    rt: &R,
    alloc: Global,
    files: &F,
    line: &CommandLine,
    sharded: ShardedReaders<F::Reader, WaitingRoom>,
    out: &mut O,
    error: &mut E,
) -> RunReport<F::Writer>
    requires asked { (words : List (List ℕ)) × Asks words line.now }
    requires several { 2 ≤ line.now.sharding.resolvers }
    requires each { sharded.proxies ≡ vec_len line.now.files }
    ensures done { (bytes : List (Option (List ℕ)))
        → All (ReadTheFiles F.Reader.remaining bytes) (map vec_items sharded.readers.items)
        → result.status ≡ Status.Done
        → IsTaskDoneByShards (state_by F.Writer.given F.Writer.failures)
        (named_files (F.contents files.now) (F.has_opened files.now) (F.cannot_open files.now)
        (F.begun files.now) (F.has_created files.now) (F.cannot_create files.now))
        sharded.points bytes line.now line.now.task result
        (written (O.given out.old) (O.given out.new) (O.failures out.old) (O.failures out.new)) }
    ensures differs { (bytes : List (Option (List ℕ)))
        → All (ReadTheFiles F.Reader.remaining bytes) (map vec_items sharded.readers.items)
        → result.status ≡ Status.Differs
        → FindsDifferencesByShards
        (named_files (F.contents files.now) (F.has_opened files.now) (F.cannot_open files.now)
        (F.begun files.now) (F.has_created files.now) (F.cannot_create files.now))
        sharded.points bytes line.now line.now.task
        (written (O.given out.old) (O.given out.new) (O.failures out.old) (O.failures out.new)) }
    ensures quiet { result.status ≢ Status.Failed → Keeps (E.given error.old) (E.given error.new) }
    ensures failed { (bytes : List (Option (List ℕ)))
        → All (ReadTheFiles F.Reader.remaining bytes) (map vec_items sharded.readers.items)
        → result.status ≡ Status.Failed
        → TaskFailsByShards (state_by F.Writer.given F.Writer.failures)
        (named_files (F.contents files.now) (F.has_opened files.now) (F.cannot_open files.now)
        (F.begun files.now) (F.has_created files.now) (F.cannot_create files.now))
        sharded.points bytes line.now line.now.task result
        (written (O.given out.old) (O.given out.new) (O.failures out.old) (O.failures out.new))
        (written (E.given error.old) (E.given error.new) (E.failures error.old)
        (E.failures error.new)) }
    ensures met { (bytes : List (Option (List ℕ)))
        → All (ReadTheFiles F.Reader.remaining bytes) (map vec_items sharded.readers.items)
        → HasMetByShards sharded.points line.now.options bytes result.met
        (written (E.given error.old) (E.given error.new) (E.failures error.old)
        (E.failures error.new)) }
    ensures output_failed { result.met.output_failed ≡ true
        → O.failures out.old < O.failures out.new }
    ensures output { result.output ≡ None }
    ensures ends { result.status ≢ Status.Usage }
{
    match &line.task {
        Task::Print => print_sharded(rt, alloc, files, line, sharded, out, error),
        Task::Summarize(form, None) => {
            let options = line.options.quieted();
            let ended = summarize_sharded_over(rt, alloc, sharded, options, *form, out, error);
            RunReport::without_files(alloc, ended)
        }
        Task::Check(replies) => {
            let ended = check_sharded(rt, alloc, files, replies, sharded, line.options, out, error);
            RunReport::without_files(alloc, ended)
        }
        // Several resolvers are asked for none of these.
        Task::Explain | Task::Stream(_) | Task::Summarize(_, Some(_)) => unreachable!(),
    }
}
