//! Combined answers that are compared with the replies in files.

ghost use Rattle.std.specs.Prelude.{◌≡◌, ◌≢◌, ◌<◌, ℕ, List, Option, length, map, true, vec_items};
ghost use Rattle.std.specs.List.{All};
ghost use Rattle.std.specs.Io.KnownBytes.{Keeps};
ghost use Rattle.replay_program.specs.Program.{named_files, texts};
ghost use Rattle.replay_tasks.specs.Replayed.{written};
ghost use Rattle.replay_tasks.specs.Sharded.{HasMetByShards};
ghost use Rattle.replay_program.specs.ShardedProgram.{ChecksFilesByShards};
ghost use Rattle.replay_program.specs.ShardedProgram.{FailsToCheckFilesByShards};
ghost use Rattle.replay_sharded.specs.Files.{ReadTheFiles};

use replay_arguments::Files;
use replay_output::{Form, Options, Status};
use replay_sharded::ShardedReaders;
use replay_tasks::{Ended, check_sharded_over, fail_to_read_replies, read_replies};
use replay_workers::WaitingRoom;
use std::alloc::Global;
use std::sync::Wait;
use std::thread::Threads;
use wire::Sink;

/// Reads the replies in the files of these names, one per file of batches, and compares, as
/// [`check_sharded_over`] does. If one of them can't be opened or has a fault, nothing is printed
/// to `out`, and the first such file is reported to `error`.
pub fn check_sharded<R: Threads + Wait + Copy + Send + 'static, F: Files, O: Sink, E: Sink>(
    rt: &R,
    alloc: Global,
    files: &F,
    replies: &[&str],
    sharded: ShardedReaders<F::Reader, WaitingRoom>,
    options: Options,
    out: &mut O,
    error: &mut E,
) -> Ended
    requires as_many { length replies.now ≡ sharded.proxies }
    requires kept { options.style.form ≡ Form.Kept }
    ensures done { (bytes : List (Option (List ℕ)))
        → All (ReadTheFiles F.Reader.remaining bytes) (map vec_items sharded.readers.items)
        → result.status ≡ Status.Done
        → ChecksFilesByShards (λ count. count ≡ 0) (F.contents files.now) sharded.points options
        bytes (texts replies.now) (O.given out.old) (O.given out.new) }
    ensures differs { (bytes : List (Option (List ℕ)))
        → All (ReadTheFiles F.Reader.remaining bytes) (map vec_items sharded.readers.items)
        → result.status ≡ Status.Differs
        → ChecksFilesByShards (λ count. count ≢ 0) (F.contents files.now) sharded.points options
        bytes (texts replies.now) (O.given out.old) (O.given out.new) }
    ensures quiet { result.status ≢ Status.Failed → Keeps (E.given error.old) (E.given error.new) }
    ensures failed { (bytes : List (Option (List ℕ)))
        → All (ReadTheFiles F.Reader.remaining bytes) (map vec_items sharded.readers.items)
        → result.status ≡ Status.Failed
        → FailsToCheckFilesByShards
        (named_files (F.contents files.now) (F.has_opened files.now) (F.cannot_open files.now)
        (F.begun files.now) (F.has_created files.now) (F.cannot_create files.now))
        sharded.points options bytes (texts replies.now)
        (written (O.given out.old) (O.given out.new) (O.failures out.old) (O.failures out.new))
        (written (E.given error.old) (E.given error.new) (E.failures error.old)
        (E.failures error.new)) }
    ensures met { (bytes : List (Option (List ℕ)))
        → All (ReadTheFiles F.Reader.remaining bytes) (map vec_items sharded.readers.items)
        → HasMetByShards sharded.points options bytes result.met
        (written (E.given error.old) (E.given error.new) (E.failures error.old)
        (E.failures error.new)) }
    ensures output_failed { result.met.output_failed ≡ true
        → O.failures out.old < O.failures out.new }
    ensures ends { result.status ≢ Status.Usage }
{
    match read_replies(alloc, files, replies) {
        Ok(recorded) => check_sharded_over(rt, alloc, sharded, recorded, options, out, error),
        Err(cause) => Ended::unstarted(fail_to_read_replies(error, cause)),
    }
}
