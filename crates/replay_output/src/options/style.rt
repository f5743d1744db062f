//! How answers are printed.

ghost use Rattle.std.specs.Prelude.{◌≡◌};
ghost use Rattle.replay_output.specs.LineFilter.{all_lines};

use crate::options::form::Form;
use crate::options::line_filter::LineFilter;

/// How the answers of a run are printed.
#[derive(Clone, Copy, Debug, PartialEq, Eq)]
pub struct Style {
    /// The form of lines.
    pub form: Form,
    /// Which lines are printed.
    pub filter: LineFilter,
}

impl Style {
    /// Creates the style that prints every line in this form.
    pub fn all(form: Form) -> Self
        ensures form { result.form ≡ form }
        ensures filter { result.filter ≡ all_lines }
    {
        Style {
            form,
            filter: LineFilter::all(),
        }
    }
}
