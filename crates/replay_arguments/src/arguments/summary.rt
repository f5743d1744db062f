//! Whether the arguments ask for a summary.

ghost use Rattle.std.specs.Prelude.{◌≡◌, ◌↔◌, IfSome, IsTrue, false, is_some, true};
ghost use Rattle.clap.specs.Words.{found_of, rows_of};
ghost use Rattle.replay_arguments.specs.Arguments.{AsksForAll, HasSummary, HoldsForm, HoldsStream};
ghost use Rattle.replay_arguments.specs.Arguments.{HoldsSummary, IsAlone, summary_form};

use crate::arguments::filter_options::is_filtered;
use clap::ArgMatches;
use replay_output::Form;
use replay_summary::SummaryForm;

/// Returns the form of the summary, if one is asked for, unless another option says what to print.
pub fn summary_of(
    matches: &ArgMatches,
    form: Form,
    is_streamed: bool,
) -> Option<Option<SummaryForm>>
    ensures summary { IfSome result (HoldsSummary (rows_of (found_of matches.now)) form) }
    ensures alone { HoldsForm (rows_of (found_of matches.now)) form
        → HoldsStream (rows_of (found_of matches.now)) is_streamed
        → IfSome result (λ summary. is_some summary ≡ true
        → IsAlone (rows_of (found_of matches.now))) }
    ensures none { HoldsForm (rows_of (found_of matches.now)) form
        → HoldsStream (rows_of (found_of matches.now)) is_streamed
        → result ≡ None → ¬ HasSummary (rows_of (found_of matches.now)) }
{
    let asked: bool = matches.get_one("summary")?;
    if !asked {
        return Some(None);
    }
    let all = asks_for_all(matches)?;
    let summary = form_alone(form, is_streamed, all)?;
    Some(Some(summary))
}

// Returns whether no option asks for some lines only.
fn asks_for_all(matches: &ArgMatches) -> Option<bool>
    ensures all { IfSome result (λ all. IsTrue all ↔ AsksForAll (rows_of (found_of matches.now))) }
    ensures none { result ≡ None → ¬ AsksForAll (rows_of (found_of matches.now)) }
{
    let quiet = matches.get_one("quiet")?;
    let (name, text) = (matches.get_str("only"), matches.get_str("versions"));
    Some(!is_filtered(quiet, name, text))
}

/// Returns the form of a summary of lines of this form, unless they come as answers do, or
/// something else is requested.
pub fn form_alone(form: Form, is_streamed: bool, all: bool) -> Option<SummaryForm>
    ensures form { IfSome result (λ summary. summary_form form ≡ Some summary) }
    ensures alone { IfSome result (λ _. (is_streamed ≡ false) × IsTrue all) }
    ensures none { result ≡ None → is_streamed ≡ false → IsTrue all
        → is_some (summary_form form) ≡ false }
{
    match (form, is_streamed, all) {
        (Form::Words, false, true) => Some(SummaryForm::Words),
        (Form::Json, false, true) => Some(SummaryForm::Json),
        _ => None,
    }
}
