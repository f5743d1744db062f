//! Whether the arguments ask that rejections are explained.

ghost use Rattle.std.specs.Prelude.{◌≡◌, ◌↔◌, ◌⊎◌, IfSome, IsTrue, false, true};
ghost use Rattle.clap.specs.Words.{found_of, rows_of};
ghost use Rattle.replay_arguments.specs.Arguments.{HasExplain, HoldsExplain, HoldsForm};
ghost use Rattle.replay_arguments.specs.Arguments.{HoldsStream};
ghost use Rattle.replay_arguments.specs.Arguments.{HoldsSummary, IsPlain};

use clap::ArgMatches;
use replay_output::Form;
use replay_summary::SummaryForm;

/// Returns whether rejections are to be explained, unless another option asks for something else
/// than lines of words or of JSON at the end.
pub fn explains(
    matches: &ArgMatches,
    form: Form,
    is_streamed: bool,
    summary: Option<SummaryForm>,
) -> Option<bool>
    ensures explains { IfSome result (HoldsExplain (rows_of (found_of matches.now))) }
    ensures plain { HoldsForm (rows_of (found_of matches.now)) form
        → HoldsStream (rows_of (found_of matches.now)) is_streamed
        → HoldsSummary (rows_of (found_of matches.now)) form summary
        → IfSome result (λ explains. explains ≡ true → IsPlain (rows_of (found_of matches.now))) }
    ensures none { HoldsForm (rows_of (found_of matches.now)) form
        → HoldsStream (rows_of (found_of matches.now)) is_streamed
        → HoldsSummary (rows_of (found_of matches.now)) form summary
        → result ≡ None → ¬ HasExplain (rows_of (found_of matches.now)) }
{
    let asked: bool = matches.get_one("explain")?;
    if asked && !is_plain(form, is_streamed, summary) {
        return None;
    }
    Some(asked)
}

// Returns whether answers are printed by lines of words or of JSON at the end.
fn is_plain(form: Form, is_streamed: bool, summary: Option<SummaryForm>) -> bool
    ensures plain { IsTrue result
        ↔ (((form ≡ Form.Words) ⊎ (form ≡ Form.Json)) × (is_streamed ≡ false) × (summary ≡ None)) }
{
    matches!(form, Form::Words | Form::Json) && !is_streamed && summary.is_none()
}
