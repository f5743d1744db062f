//! What the arguments ask to print.

ghost use Rattle.std.specs.Prelude.{◌≡◌, ◌≢◌, IfOk, IfSome, OnErr, true};
ghost use Rattle.clap.specs.Words.{found_of, rows_of};
ghost use Rattle.replay_arguments.specs.Printing.{HoldsPrinting};
ghost use Rattle.replay_arguments.specs.Arguments.{HasForm, HasStream, HoldsForm, HoldsStream};
ghost use Rattle.replay_arguments.specs.Arguments.{IsFormOf, PrintsNothing};
ghost use Rattle.replay_output.specs.declared.options.form.Form.{Form as FormValue};

use crate::arguments::explain_option::explains;
use crate::arguments::filter_options::filter_of;
use crate::arguments::mistake::Mistake;
use crate::arguments::summary::summary_of;
use clap::ArgMatches;
use replay_output::{Form, Style};
use replay_summary::SummaryForm;

/// What the arguments ask to print.
#[derive(Clone, Copy, Debug, PartialEq, Eq)]
pub struct Printing {
    /// The form of the lines, and which of them are printed.
    pub style: Style,
    /// Answers are printed as they come.
    pub is_streamed: bool,
    /// The form of the summary that is printed instead of answers, if one is requested.
    pub summary: Option<SummaryForm>,
    /// Rejections are explained.
    pub explains: bool,
}

/// Returns what to print. An error is the first option that contradicts another, or has no meaning.
pub fn printing_of(matches: &ArgMatches) -> Result<Printing, Mistake>
    ensures printing { IfOk result (HoldsPrinting (rows_of (found_of matches.now))) }
    ensures none { OnErr result (PrintsNothing (rows_of (found_of matches.now))) }
{
    let Some(form) = form_of(matches) else {
        return Err(Mistake::Forms);
    };
    let filter = filter_of(matches, form)?;
    let Some(is_streamed) = is_streamed(matches, form) else {
        return Err(Mistake::CheckOfStream);
    };
    let Some(summary) = summary_of(matches, form, is_streamed) else {
        return Err(Mistake::Summary);
    };
    let Some(explains) = explains(matches, form, is_streamed, summary) else {
        return Err(Mistake::Explain);
    };
    Ok(Printing {
        style: Style { form, filter },
        is_streamed,
        summary,
        explains,
    })
}

// Returns the form of printed answers, unless two forms are requested.
fn form_of(matches: &ArgMatches) -> Option<Form>
    ensures form { IfSome result (HoldsForm (rows_of (found_of matches.now))) }
    ensures none { result ≡ None → ¬ HasForm (rows_of (found_of matches.now)) }
{
    one_form(
        matches.get_one("frames")?,
        matches.get_one("json")?,
        matches.get_strs("check").is_some(),
    )
}

// Returns the form of these switches, of which at most one is on.
fn one_form(frames: bool, json: bool, check: bool) -> Option<Form>
    ensures form { IfSome result (λ form. IsFormOf form frames json check) }
    ensures none { (form : FormValue) → result ≡ None → ¬ IsFormOf form frames json check }
{
    match (frames, json, check) {
        (false, false, false) => Some(Form::Words),
        (true, false, false) => Some(Form::Frames),
        (false, true, false) => Some(Form::Json),
        (false, false, true) => Some(Form::Kept),
        _ => None,
    }
}

// Returns whether answers are printed as they come, unless they are to be compared too.
fn is_streamed(matches: &ArgMatches, form: Form) -> Option<bool>
    ensures stream { IfSome result (HoldsStream (rows_of (found_of matches.now))) }
    ensures plain { IfSome result (λ is_streamed. is_streamed ≡ true → form ≢ Form.Kept) }
    ensures none { result ≡ None → HoldsForm (rows_of (found_of matches.now)) form
        → ¬ HasStream (rows_of (found_of matches.now)) }
{
    let is_streamed: bool = matches.get_one("stream")?;
    if is_streamed && form.is_kept() {
        return None;
    }
    Some(is_streamed)
}
