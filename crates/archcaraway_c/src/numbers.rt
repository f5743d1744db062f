//! The limits of the numbers that C gives.

ghost use Rattle.std.specs.Prelude.{◌↔◌, IsTrue};
ghost use Rattle.archcaraway_c.specs.Numbers.{AreSetNumbers};

use limits::{MAX_LIMIT, MAX_WINDOW};

/// Returns whether the window and the limit are within their ranges.
pub fn are_set_numbers(window: i64, limit: u64) -> bool
    ensures within { IsTrue result ↔ AreSetNumbers window limit }
{
    (1..=MAX_WINDOW).contains(&window) && (1..=MAX_LIMIT as u64).contains(&limit)
}
