//! How the program ends.

ghost use Rattle.std.specs.Prelude.{◌≡◌};
ghost use Rattle.std.specs.Process.{exit_status};

use std::process::{ExitCode, Termination};

/// How the program ends.
#[derive(Clone, Copy, Debug, PartialEq, Eq)]
pub enum JobStatus {
    /// All was read and written.
    Done,
    /// A line on standard error says what failed, or a write failed.
    Failed,
    /// The command line was refused.
    Usage,
}

impl JobStatus {
    /// Returns the program's exit code.
    pub fn code(self) -> u8
        ensures done { self ≡ JobStatus.Done → result ≡ 0 }
        ensures failed { self ≡ JobStatus.Failed → result ≡ 1 }
        ensures usage { self ≡ JobStatus.Usage → result ≡ 2 }
    {
        match self {
            JobStatus::Done => 0,
            JobStatus::Failed => 1,
            JobStatus::Usage => 2,
        }
    }
}

impl Termination for JobStatus {
    fn report<R: Eprint>(self, _rt: &R) -> ExitCode
        ensures done { self ≡ JobStatus.Done → exit_status result ≡ 0 }
        ensures failed { self ≡ JobStatus.Failed → exit_status result ≡ 1 }
        ensures usage { self ≡ JobStatus.Usage → exit_status result ≡ 2 }
    {
        ExitCode::from(self.code())
    }
}
