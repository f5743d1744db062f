//! The form of printed answers.

ghost use Rattle.std.specs.Prelude.{◌≡◌, ◌↔◌, IsTrue};

/// The form of the printed answers of a run.
#[derive(Clone, Copy, Debug, PartialEq, Eq)]
pub enum Form {
    /// By lines of words.
    Words,
    /// By lines that have each reply as its frame, in hexadecimal.
    Frames,
    /// By lines of JSON.
    Json,
    /// By no lines: the replies are kept, to be compared with others.
    Kept,
}

impl Form {
    /// Returns whether the replies are kept, to be compared with others.
    pub fn is_kept(self) -> bool
        ensures kept { IsTrue result ↔ (self ≡ Form.Kept) }
    {
        matches!(self, Form::Kept)
    }
}
