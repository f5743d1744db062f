//! The words that recur in lines, and the units that represent them.

ghost use Rattle.std.specs.Prelude.{◌≡◌, ◌<◌, ◌≤◌, ◌++◌, length, IfSome, IsSome};
ghost use Rattle.replay_output.specs.Packed.{IsUnit, word_of_number, text_of_unit, times_of};
ghost use Rattle.replay_output.specs.Packed.{word_of};
ghost use Rattle.replay_output.specs.Packed.{word_text};

/// The first unit that represents a word. Those below it are letters.
pub const FIRST_WORD: u8 = 128;

/// How many words there are.
const WORDS: u8 = 7;

/// The most times in a row that a unit repeats its word.
pub const MOST_IN_A_ROW: u8 = 18;

/// The length of the longest word.
pub const LONGEST_WORD: usize = 14;

/// A word that recurs, after its separator from the entry before: a blank, or in JSON a comma.
#[derive(Clone, Copy, PartialEq, Eq)]
pub enum Word {
    /// ` committed`
    Committed,
    /// ` tooold`
    TooOld,
    /// ` conflict`
    Conflict,
    /// `,"committed"`
    CommittedJson,
    /// `,"tooold"`
    TooOldJson,
    /// `,"conflict"`
    ConflictJson,
    /// `,{"conflict":[`, before places.
    PlacesJson,
}

impl Word {
    /// Returns the word that a unit represents.
    pub fn of_unit(unit: u8) -> Self
        requires word { FIRST_WORD ≤ unit }
        ensures word { result ≡ word_of unit }
    {
        match (unit - FIRST_WORD) % WORDS {
            0 => Word::Committed,
            1 => Word::TooOld,
            2 => Word::Conflict,
            3 => Word::CommittedJson,
            4 => Word::TooOldJson,
            5 => Word::ConflictJson,
            _ => Word::PlacesJson,
        }
    }

    fn number(self) -> u8
        ensures word { word_of_number result ≡ self }
        ensures below { result < WORDS }
    {
        match self {
            Word::Committed => 0,
            Word::TooOld => 1,
            Word::Conflict => 2,
            Word::CommittedJson => 3,
            Word::TooOldJson => 4,
            Word::ConflictJson => 5,
            Word::PlacesJson => 6,
        }
    }

    /// Returns the unit that represents the word once.
    pub fn unit(self) -> u8
        ensures unit { IsUnit result }
        ensures spelled { text_of_unit result ≡ word_text self }
    {
        FIRST_WORD + self.number()
    }

    /// Returns the unit that represents the text of this one, and then the word. Returns none if
    /// this one represents a letter or another word, or for the word as many times in a row as a
    /// unit can.
    pub fn after(self, unit: u8) -> Option<u8>
        ensures unit { IfSome result IsUnit }
        ensures spelled { IfSome result (λ more. text_of_unit more
            ≡ text_of_unit unit ++ word_text self) }
        ensures some { FIRST_WORD ≤ unit → word_of unit ≡ self → times_of unit < MOST_IN_A_ROW
            → IsSome result }
    {
        if unit < FIRST_WORD || Word::of_unit(unit) != self || times(unit) >= MOST_IN_A_ROW {
            return None;
        }
        Some(unit + WORDS)
    }

    /// Returns the text of the word.
    pub fn text(self) -> &'static [u8]
        ensures text { result.now ≡ word_text self }
        ensures short { length result.now ≤ LONGEST_WORD }
    {
        match self {
            Word::Committed => b" committed",
            Word::TooOld => b" tooold",
            Word::Conflict => b" conflict",
            Word::CommittedJson => b",\"committed\"",
            Word::TooOldJson => b",\"tooold\"",
            Word::ConflictJson => b",\"conflict\"",
            Word::PlacesJson => b",{\"conflict\":[",
        }
    }
}

/// Returns how many times in a row a unit repeats its word.
pub fn times(unit: u8) -> u8
    requires word { FIRST_WORD ≤ unit }
    ensures times { result ≡ times_of unit }
{
    (unit - FIRST_WORD) / WORDS + 1
}
