//! The members of an object.

ghost use Rattle.std.specs.Prelude.{◌≡◌};
ghost use Rattle.json_lines.specs.Names.{name_of};

use std::fmt;

/// A member of an object of a line.
#[derive(Clone, Copy, Debug, PartialEq, Eq)]
pub enum Member {
    Previous,
    Version,
    Received,
    Transactions,
    Snapshot,
    Report,
    Reads,
    Writes,
    Verdicts,
    Conflict,
}

impl Member {
    /// Returns the name of the member.
    pub fn name(self) -> &'static str
        ensures name { result.now ≡ name_of self }
    {
        match self {
            Member::Previous => "previous",
            Member::Version => "version",
            Member::Received => "received",
            Member::Transactions => "transactions",
            Member::Snapshot => "snapshot",
            Member::Report => "report",
            Member::Reads => "reads",
            Member::Writes => "writes",
            Member::Verdicts => "verdicts",
            Member::Conflict => "conflict",
        }
    }
}

impl fmt::Display for Member {
    fn fmt<W: fmt::Write>(&self, f: &mut fmt::Formatter<W>) -> fmt::Result {
        f.write_str(self.name())
    }
}
