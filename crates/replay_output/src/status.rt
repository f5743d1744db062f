//! How the program ends.

ghost use Rattle.std.specs.Prelude.{◌≡◌, ◌↔◌, ◌≢◌, IsTrue};
ghost use Rattle.std.specs.Process.{exit_status};

use std::process::{ExitCode, Termination};

/// How the program ends.
#[derive(Clone, Copy, Debug, PartialEq, Eq)]
pub enum Status {
    /// All was read, resolved and printed, or compared with no difference.
    Done,
    /// A line on standard error says what failed, or a write failed.
    Failed,
    /// The command line was refused.
    Usage,
    /// All was read, resolved and compared, and some replies differ.
    Differs,
}

impl Status {
    /// Returns the program's exit code.
    pub fn code(self) -> u8
        ensures done { self ≡ Status.Done → result ≡ 0 }
        ensures failed { self ≡ Status.Failed → result ≡ 1 }
        ensures usage { self ≡ Status.Usage → result ≡ 2 }
        ensures differs { self ≡ Status.Differs → result ≡ 3 }
    {
        match self {
            Status::Done => 0,
            Status::Failed => 1,
            Status::Usage => 2,
            Status::Differs => 3,
        }
    }

    /// Returns `Done` for a success, and else `Failed`.
    pub fn of(success: bool) -> Self
        ensures done { result ≡ Status.Done ↔ IsTrue success }
        ensures ends { result ≢ Status.Usage }
        ensures same { result ≢ Status.Differs }
    {
        if success {
            Status::Done
        } else {
            Status::Failed
        }
    }
}

impl Termination for Status {
    fn report<R: Eprint>(self, _rt: &R) -> ExitCode
        ensures done { self ≡ Status.Done → exit_status result ≡ 0 }
        ensures failed { self ≡ Status.Failed → exit_status result ≡ 1 }
        ensures usage { self ≡ Status.Usage → exit_status result ≡ 2 }
        ensures differs { self ≡ Status.Differs → exit_status result ≡ 3 }
    {
        ExitCode::from(self.code())
    }
}
