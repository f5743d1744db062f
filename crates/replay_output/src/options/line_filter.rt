//! Which lines of answers are printed.

ghost use Rattle.std.specs.Prelude.{◌≡◌, ℤ, Option};
ghost use Rattle.std.specs.List.{list_any};
ghost use Rattle.replay_output.specs.LineFilter.{all_lines, has_verdict, is_below, is_shown};
ghost use Rattle.checking.specs.Difference.{is_same_verdict};

use crate::version::version_of;
use keyspace::{Answer, Entry, Verdict};

/// Which lines of answers are printed: those that each field shows. What is read, resolved and
/// recorded doesn't depend on it.
#[derive(Clone, Copy, Debug, PartialEq, Eq)]
pub struct LineFilter {
    /// No line is shown.
    pub quiet: bool,
    /// Shows only replies that have this verdict, if one is given.
    pub only: Option<Verdict>,
    /// Shows only this version and later ones.
    pub least: i64,
    /// Shows only versions before this one, if one is given.
    pub below: Option<i64>,
}

impl LineFilter {
    /// Creates the filter that shows every line.
    pub fn all() -> Self
        ensures all { result ≡ all_lines }
    {
        LineFilter {
            quiet: false,
            only: None,
            least: i64::MIN,
            below: None,
        }
    }

    /// Returns whether the line of an answer is printed.
    pub fn shows(&self, answer: &Answer) -> bool
        ensures shown { result ≡ is_shown self.now answer.now }
    {
        let version = version_of(answer);
        !self.quiet
            && has_verdict(self.only, answer)
            && self.least <= version
            && is_below(self.below, version)
    }
}

// Returns whether the answer is a reply with this verdict, or none is asked for.
fn has_verdict(only: Option<Verdict>, answer: &Answer) -> bool
    ensures has { result ≡ has_verdict only answer.now }
{
    match (only, answer) {
        (None, _) => true,
        (Some(verdict), Answer::Reply(reply)) => any_has(verdict, reply.entries.as_slice()),
        (Some(_), Answer::Never(_) | Answer::Held(_)) => false,
    }
}

// Returns whether some transaction has this verdict.
fn any_has(verdict: Verdict, entries: &[Entry]) -> bool
    ensures any { result ≡ list_any (λ entry. is_same_verdict verdict entry.verdict) entries.now }
{
    for entry in entries {
        if entry.verdict == verdict {
            return true;
        }
    }
    false
}

// Returns whether the version is before this one, or none is given.
fn is_below(below: Option<i64>, version: i64) -> bool
    ensures below { result ≡ is_below below version }
{
    match below {
        Some(below) => version < below,
        None => true,
    }
}
