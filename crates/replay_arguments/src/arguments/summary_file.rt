//! The file for the summary among the arguments.

ghost use Rattle.std.specs.Prelude.{◌≡◌, ◌↔◌, IfSome, IsTrue, false, is_some, true};
ghost use Rattle.clap.specs.Words.{found_of, rows_of};
ghost use Rattle.replay_arguments.specs.Arguments.{HasSummaryFile, HoldsExplain, HoldsForm};
ghost use Rattle.replay_arguments.specs.Arguments.{HoldsStream, HoldsSummary, HoldsSummaryFile};
ghost use Rattle.replay_arguments.specs.Arguments.{IsBeside};

use crate::arguments::print_options::Printing;
use crate::arguments::summary::form_alone;
use clap::ArgMatches;
use replay_summary::SummaryForm;

/// A file for the summary.
#[derive(Clone, Copy, Debug, PartialEq, Eq)]
pub struct SummaryFile<'a> {
    pub name: &'a str,
    pub form: SummaryForm,
}

/// Returns the file for the summary, if one is given, unless something else than answers alone is
/// printed beside it.
pub fn summary_file<'a>(
    matches: &ArgMatches<'a>,
    printing: Printing,
) -> Option<Option<SummaryFile<'a>>>
    ensures file { IfSome result (HoldsSummaryFile (rows_of (found_of matches.now))
        printing.style.form) }
    ensures beside { HoldsForm (rows_of (found_of matches.now)) printing.style.form
        → HoldsStream (rows_of (found_of matches.now)) printing.is_streamed
        → HoldsSummary (rows_of (found_of matches.now)) printing.style.form printing.summary
        → HoldsExplain (rows_of (found_of matches.now)) printing.explains
        → IfSome result (λ file. is_some file ≡ true
        → IsBeside (rows_of (found_of matches.now))) }
    ensures none { HoldsForm (rows_of (found_of matches.now)) printing.style.form
        → HoldsStream (rows_of (found_of matches.now)) printing.is_streamed
        → HoldsSummary (rows_of (found_of matches.now)) printing.style.form printing.summary
        → HoldsExplain (rows_of (found_of matches.now)) printing.explains
        → result ≡ None → ¬ HasSummaryFile (rows_of (found_of matches.now)) }
{
    let Some(name) = matches.get_str("summary-to") else {
        return Some(None);
    };
    let alone = are_alone(printing.summary, printing.explains);
    let form = form_alone(printing.style.form, printing.is_streamed, alone)?;
    Some(Some(SummaryFile { name, form }))
}

// Returns whether answers are printed alone.
fn are_alone(summary: Option<SummaryForm>, explains: bool) -> bool
    ensures alone { IsTrue result ↔ ((summary ≡ None) × (explains ≡ false)) }
{
    summary.is_none() && !explains
}
