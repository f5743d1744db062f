//! Details of what the arguments ask to print.

ghost use Rattle.std.specs.Prelude.{◌≡◌, ◌↔◌, ℕ, IfOk, IfSome, IsTrue, OnErr, is_some, true};
ghost use Rattle.clap.specs.Words.{found_of, rows_of};
ghost use Rattle.replay_arguments.specs.Details.{HoldsDetails};
ghost use Rattle.replay_arguments.specs.Arguments.{DetailsNothing, HasTop, HasVerbose};
ghost use Rattle.replay_arguments.specs.Arguments.{HoldsSummary};
ghost use Rattle.replay_arguments.specs.Arguments.{HoldsTop, HoldsVerbose, IsSummarized, IsTopOf};

use crate::arguments::mistake::Mistake;
use crate::arguments::print_options::Printing;
use clap::ArgMatches;

/// The greatest number that `--top` takes.
pub const MAX_TOP: usize = 1000;

/// Details of what the arguments ask to print.
#[derive(Clone, Copy, Debug, PartialEq, Eq)]
pub struct Details {
    /// How many of the ranges that conflict most the summary lists, from 1 to [`MAX_TOP`], if a
    /// number is given.
    pub top: Option<usize>,
    /// A failure is explained.
    pub verbose: bool,
}

/// Returns the details. An error is the first one of something that isn't printed.
pub fn details_of(matches: &ArgMatches, printing: Printing) -> Result<Details, Mistake>
    ensures details { HoldsSummary (rows_of (found_of matches.now)) printing.style.form
        printing.summary
        → IfOk result (HoldsDetails (rows_of (found_of matches.now))) }
    ensures none { OnErr result (
        HoldsSummary (rows_of (found_of matches.now)) printing.style.form printing.summary
        → DetailsNothing (rows_of (found_of matches.now))) }
{
    let Some(top) = top_of(matches, printing.summary.is_some()) else {
        return Err(Mistake::Top);
    };
    let Some(verbose) = is_verbose(matches) else {
        return Err(Mistake::Verbose);
    };
    Ok(Details { top, verbose })
}

// Returns whether a failure is to be explained. `clap` refuses a value itself.
fn is_verbose(matches: &ArgMatches) -> Option<bool>
    ensures verbose { IfSome result (HoldsVerbose (rows_of (found_of matches.now))) }
    ensures none { result ≡ None → ¬ HasVerbose (rows_of (found_of matches.now)) }
{
    matches.get_one("verbose")
}

// Returns how many ranges the summary lists, if a number is given, unless no summary is printed.
fn top_of(matches: &ArgMatches, is_summarized: bool) -> Option<Option<usize>>
    ensures top { IfSome result (HoldsTop (rows_of (found_of matches.now))) }
    ensures summarized { (IsTrue is_summarized ↔ IsSummarized (rows_of (found_of matches.now)))
        → IfSome result (λ top. is_some top ≡ true
        → IsSummarized (rows_of (found_of matches.now))) }
    ensures none { (IsTrue is_summarized ↔ IsSummarized (rows_of (found_of matches.now)))
        → result ≡ None → ¬ HasTop (rows_of (found_of matches.now)) }
{
    let Some(text) = matches.get_str("top") else {
        return Some(None);
    };
    if !is_summarized {
        return None;
    }
    let top = parse_top(text)?;
    Some(Some(top))
}

fn parse_top(text: &str) -> Option<usize>
    ensures top { IfSome result (λ top. IsTopOf text.now top) }
    ensures none { (top : ℕ) → result ≡ None → ¬ IsTopOf text.now top }
{
    let top: usize = text.parse().ok()?;
    if !(1..=MAX_TOP).contains(&top) {
        return None;
    }
    Some(top)
}
