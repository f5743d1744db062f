//! An arena: two records, of which the first stays as the second is placed.

ghost use Rattle.std.specs.Prelude.{◌≡◌, ◌≢◌, IfOk, Some};
ghost use Rattle.arena.specs.Arena.{header_at, key_at};

use arena::{Arena, ArenaError, Slot};

/// Places two keys under the headers 1 and 2, and returns their slots.
pub fn keep_two(
    arena: &mut Arena<u32>,
    first: &[u8],
    second: &[u8],
) -> Result<(Slot, Slot), ArenaError>
    ensures apart { IfOk result (λ slots. slots.0 ≢ slots.1) }
    ensures first { IfOk result (λ slots. key_at arena.new slots.0 ≡ Some first.now) }
    ensures second { IfOk result (λ slots. key_at arena.new slots.1 ≡ Some second.now) }
    ensures header { IfOk result (λ slots. header_at arena.new slots.0 ≡ Some 1) }
{
    let one = arena.place(1, first)?;
    let two = arena.place(2, second)?;
    Ok((one, two))
}
