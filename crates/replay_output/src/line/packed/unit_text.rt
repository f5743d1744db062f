//! Spells packed text out when it is printed.

ghost use Rattle.std.specs.Prelude.{◌≡◌, ◌+◌, ◌<◌, ◌≤◌, ◌++◌, ℕ, take, length, OnOk, OnErr, IfSome};
ghost use Rattle.std.specs.Io.KnownBytes.{Appends};
ghost use Rattle.std.specs.List.{All};
ghost use Rattle.arrayvec.specs.ArrayVec.{array_vec_len};
ghost use Rattle.replay_output.specs.Packed.{IsUnit, text_of_unit, text_of_units};

use super::word::{FIRST_WORD, LONGEST_WORD, MOST_IN_A_ROW, Word, times};
use arrayvec::ArrayVec;
use wire::{Failed, Sink, write_all};

// How many units are spelled out at a time.
const RUN: usize = 8;

// Room for the text of one unit.
const UNIT_ROOM: usize = MOST_IN_A_ROW as usize * LONGEST_WORD;

// Room for the text of a run of units.
const ROOM: usize = RUN * UNIT_ROOM;

/// Prints the text of these units. After a failure a prefix of it is printed. Takes no memory.
pub fn print_units<W: Sink>(out: &mut W, units: &[u8]) -> Result<(), Failed>
    requires units { All IsUnit units.now }
    ensures entire { OnOk result (Appends (W.given out.old) (W.given out.new)
        (text_of_units units.now)) }
    ensures prefix { OnErr result (IfSome (W.given out.new) (λ _.
        (n : ℕ) × Appends (W.given out.old) (W.given out.new) (take n (text_of_units units.now)))) }
    ensures ok { OnOk result (W.failures out.new ≡ W.failures out.old) }
    ensures failed { OnErr result (W.failures out.old < W.failures out.new) }
{
    let mut text = ArrayVec::new();
    let mut printed = 0;
    while printed < units.len() {
        let end = units.len().min(printed.saturating_add(RUN));
        spell(&mut text, &units[printed..end]);
        write_all(out, text.as_slice())?;
        printed = end;
    }
    Ok(())
}

// Makes this the text of the units, whatever it was.
fn spell(text: &mut ArrayVec<u8, ROOM>, units: &[u8])
    requires units { All IsUnit units.now }
    requires run { length units.now ≤ RUN }
    ensures text { text.new.items ≡ text_of_units units.now }
{
    text.clear();
    for unit in units {
        push_unit(text, *unit);
    }
}

fn push_unit(text: &mut ArrayVec<u8, ROOM>, unit: u8)
    requires unit { IsUnit unit }
    requires room { array_vec_len text.old + UNIT_ROOM ≤ ROOM }
    ensures text { text.new.items ≡ text.old.items ++ text_of_unit unit }
    ensures length { array_vec_len text.new ≤ array_vec_len text.old + UNIT_ROOM }
{
    if unit < FIRST_WORD {
        text.push(unit);
        return;
    }
    let word = Word::of_unit(unit).text();
    for _ in 0..times(unit) {
        text.try_extend_from_slice(word).unwrap();
    }
}
