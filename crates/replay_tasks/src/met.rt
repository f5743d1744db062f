//! What a run met, and how the program ends after it.

ghost use Rattle.std.specs.Prelude.{◌≡◌, None, false, true};

use limits::Stop;
use replay_output::{PrintError, Report, Status};

/// What a run met of which its fixed lines say a part, or nothing.
#[derive(Clone, Copy, Debug, PartialEq, Eq)]
pub struct Met {
    /// The stop of the resolver, if it met one.
    pub stop: Option<Stop>,
    /// The version of the last batch that was processed, or -1 before the first one. None if it
    /// isn't known: a run that prints answers as they come doesn't note it.
    pub version: Option<i64>,
    /// The writer of the output has failed.
    pub output_failed: bool,
}

/// How the program ends after a run, and what the run met.
#[derive(Clone, Copy, Debug, PartialEq, Eq)]
pub struct Ended {
    pub status: Status,
    pub met: Met,
}

impl Ended {
    /// The end of a program whose run was not begun.
    pub fn unstarted(status: Status) -> Self
        ensures status { result.status ≡ status }
        ensures stop { result.met.stop ≡ None }
        ensures output_failed { result.met.output_failed ≡ false }
    {
        Ended {
            status,
            met: Met {
                stop: None,
                version: None,
                output_failed: false,
            },
        }
    }

    /// The end of a program after a run that met this stop and reached this version, by what was
    /// printed of it.
    pub fn after(report: &Report, stop: Option<Stop>, version: Option<i64>) -> Self
        ensures status { result.status ≡ report.now.status }
        ensures stop { result.met.stop ≡ stop }
        ensures version { result.met.version ≡ version }
        ensures output_failed { result.met.output_failed ≡ true
            → report.now.printed ≡ Err PrintError.Write }
    {
        Ended {
            status: report.status,
            met: Met {
                stop,
                version,
                output_failed: is_unwritten(&report.printed),
            },
        }
    }
}

/// Returns whether the text was not printed since its writer has failed.
pub fn is_unwritten<T>(printed: &Result<T, PrintError>) -> bool
    ensures write { result ≡ true → printed.now ≡ Err PrintError.Write }
{
    matches!(printed, Err(PrintError::Write))
}
