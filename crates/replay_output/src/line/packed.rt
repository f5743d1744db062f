//! Text in which a word that recurs takes one byte, and so does a run of one word.

ghost use Rattle.std.specs.Prelude.{◌≡◌, ◌↔◌, ◌<◌, ◌++◌, ℕ, [], take, OnOk, OnErr, IfSome, Some};
ghost use Rattle.std.specs.Prelude.{IsTrue, false};
ghost use Rattle.std.specs.Str.{IsAscii};
ghost use Rattle.std.specs.Io.{WritesAtMost};
ghost use Rattle.std.specs.Io.KnownBytes.{Appends, Keeps, WriteAppends};
ghost use Rattle.replay_output.specs.Packed.{word_text};

use std::alloc::{AllocError, Global};
use std::io;
use std::io::{Error, ErrorKind, Write};
use std::marker::Model;
use unit_text::print_units;
use wire::{Failed, Sink};

mod unit_text;
mod word;

pub use word::Word;

/// ASCII text in which a word that recurs takes one byte, and so does a run of one word. Contracts
/// see the text.
#[derive(Drop)]
pub struct PackedText {
    // Each is a letter of the text, or represents a word n times in a row.
    units: Vec<u8>,
}

impl Model for PackedText {
    ghost use Rattle.std.specs.Prelude.{ℕ, List};
    ghost use Rattle.std.specs.List.{All};
    ghost use Rattle.replay_output.specs.Packed.{IsUnit, text_of_units};

    ghost Value = { List ℕ };

    ghost view = { λ t. text_of_units t.units.items };

    ghost invariant = { λ t. All IsUnit t.units.items };
}

impl PackedText {
    /// Creates an empty text.
    pub fn new(alloc: Global) -> Self
        ensures empty { result ≡ [] }
    {
        PackedText {
            units: Vec::new(alloc),
        }
    }

    /// Returns whether the text is empty.
    pub fn is_empty(&self) -> bool
        ensures empty { IsTrue result ↔ (self.now ≡ []) }
    {
        self.units.is_empty()
    }

    /// Makes room for n letters more, and for no others.
    pub fn reserve_more(&mut self, additional: usize) -> Result<(), AllocError>
        ensures same { self.new ≡ self.old }
    {
        self.units.reserve_exact(additional)
    }

    /// Appends the word.
    pub fn push_word(&mut self, word: Word) -> io::Result<()>
        ensures text { OnOk result (self.new ≡ self.old ++ word_text word) }
        ensures same { OnErr result (self.new ≡ self.old) }
    {
        // No chain of `let`s, which is newer than the Rust that the Cargo edition asks for.
        if let Some(last) = self.units.last_mut() {
            if let Some(more) = word.after(*last) {
                *last = more;
                return Ok(());
            }
        }
        Ok(self.units.push(word.unit())?)
    }

    /// Removes these letters from the end of the text, which have to be ASCII. Returns whether it
    /// ends in them, letter by letter. If not, the text is as it was.
    pub fn remove_end(&mut self, end: &[u8]) -> bool
        requires ascii { IsAscii end.now }
        ensures removed { IsTrue result → self.old ≡ self.new ++ end.now }
        ensures same { result ≡ false → self.new ≡ self.old }
    {
        if !self.units.ends_with(end) {
            return false;
        }
        let kept = self.units.len() - end.len();
        self.units.truncate(kept);
        true
    }

    /// Prints the text. After a failure a prefix of it is printed. Takes no memory.
    pub fn print<W: Sink>(&self, out: &mut W) -> Result<(), Failed>
        ensures entire { OnOk result (Appends (W.given out.old) (W.given out.new) self.now) }
        ensures prefix { OnErr result (IfSome (W.given out.new) (λ _.
            (n : ℕ) × Appends (W.given out.old) (W.given out.new) (take n self.now))) }
        ensures ok { OnOk result (W.failures out.new ≡ W.failures out.old) }
        ensures failed { OnErr result (W.failures out.old < W.failures out.new) }
    {
        print_units(out, self.units.as_slice())
    }
}

/// Appends bytes, which have to be ASCII.
impl Write for PackedText {
    ghost contents = { λ text. Some text };

    fn write(&mut self, bytes: &[u8]) -> io::Result<usize>
        ensures bound { WritesAtMost result bytes.now }
        ensures bytes { WriteAppends (Some self.old) (Some self.new) result bytes.now }
    {
        if !bytes.is_ascii() {
            return Err(Error::from(ErrorKind::InvalidInput));
        }
        self.units.extend_from_slice(bytes)?;
        Ok(bytes.len())
    }

    fn flush(&mut self) -> io::Result<()>
        ensures bytes { Keeps (Some self.old) (Some self.new) }
    {
        Ok(())
    }
}
