//! Options with which no line of an answer is shown.

ghost use Rattle.std.specs.Prelude.{◌≡◌};
ghost use Rattle.replay_output.specs.Quieted.{options_quieted};

use crate::options::Options;

impl Options {
    /// Returns the same options, with which no line of an answer is shown.
    pub fn quieted(self) -> Self
        ensures quieted { result ≡ options_quieted self }
    {
        let mut options = self;
        options.style.filter.quiet = true;
        options
    }
}
