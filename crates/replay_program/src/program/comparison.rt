//! Answers that are compared with the replies in files.

ghost use Rattle.std.specs.Prelude.{◌≡◌, ◌≢◌, ◌≤◌, ◌<◌, length, map, true, vec_len};
ghost use Rattle.std.specs.Io.KnownBytes.{Keeps};
ghost use Rattle.replay_tasks.specs.Met.{HasMet};
ghost use Rattle.replay_program.specs.Program.{ChecksFiles, FailsToCheck, named_files, texts};
ghost use Rattle.replay_tasks.specs.Replayed.{written};

use crate::program::opened::Opened;
use limits::MAX_PROXIES;
use replay_arguments::Files;
use replay_output::{Form, Options, Status};
use replay_tasks::{Ended, check_over, fail_to_read_replies, read_replies};
use std::alloc::Global;
use std::sync::Wait;
use std::thread::Threads;
use wire::Sink;

/// Reads the replies in the files of these names, one per file of batches, and compares, as
/// [`check_over`] does. If one of them can't be opened or has a fault, nothing is printed to `out`,
/// and the first such file is reported to `error`.
pub fn check_replies<R: Threads + Wait + Copy + Send + 'static, F: Files, O: Sink, E: Sink>(
    rt: &R,
    alloc: Global,
    files: &F,
    replies: &[&str],
    opened: Opened<F::Reader>,
    options: Options,
    out: &mut O,
    error: &mut E,
) -> Ended
    requires least_files { 1 ≤ vec_len opened.readers }
    requires most_files { vec_len opened.readers ≤ MAX_PROXIES }
    requires as_many { length replies.now ≡ vec_len opened.readers }
    requires kept { options.style.form ≡ Form.Kept }
    ensures done { result.status ≡ Status.Done
        → ChecksFiles (λ count. count ≡ 0) (F.contents files.now) options
        (map F.Reader.remaining opened.readers.items) (texts replies.now)
        (O.given out.old) (O.given out.new) }
    ensures differs { result.status ≡ Status.Differs
        → ChecksFiles (λ count. count ≢ 0) (F.contents files.now) options
        (map F.Reader.remaining opened.readers.items) (texts replies.now)
        (O.given out.old) (O.given out.new) }
    ensures quiet { result.status ≢ Status.Failed → Keeps (E.given error.old) (E.given error.new) }
    ensures failed { result.status ≡ Status.Failed
        → FailsToCheck
        (named_files (F.contents files.now) (F.has_opened files.now) (F.cannot_open files.now)
        (F.begun files.now) (F.has_created files.now) (F.cannot_create files.now))
        options (map F.Reader.remaining opened.readers.items) (texts replies.now)
        (written (O.given out.old) (O.given out.new) (O.failures out.old) (O.failures out.new))
        (written (E.given error.old) (E.given error.new) (E.failures error.old)
        (E.failures error.new)) }
    ensures met { HasMet options
        (map F.Reader.remaining opened.readers.items) result.met
        (written (E.given error.old) (E.given error.new) (E.failures error.old)
        (E.failures error.new)) }
    ensures output_failed { result.met.output_failed ≡ true
        → O.failures out.old < O.failures out.new }
    ensures ends { result.status ≢ Status.Usage }
{
    let Opened { readers, room } = opened;
    match read_replies(alloc, files, replies) {
        Ok(recorded) => check_over(rt, alloc, readers, recorded, options, &room, out, error),
        Err(cause) => Ended::unstarted(fail_to_read_replies(error, cause)),
    }
}
