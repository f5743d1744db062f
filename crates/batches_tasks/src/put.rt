//! Texts, numbers and means, appended to a text.

ghost use Rattle.std.specs.Prelude.{◌≡◌, ◌++◌, decimal, IfSome, OnOk};
ghost use Rattle.batches_tasks.specs.StatsText.{mean_text, tenths_of};

use crate::failure::Failure;
use crate::spread::Spread;
use std::io::Write;

/// Appends a text.
pub fn put_text(out: &mut Vec<u8>, text: &str) -> Result<(), Failure>
    ensures text { OnOk result (out.new.items ≡ out.old.items ++ text.now) }
{
    Ok(out.extend_from_slice(text.as_bytes())?)
}

/// Appends a number.
pub fn put_decimal(out: &mut Vec<u8>, number: u64) -> Result<(), Failure>
    ensures text { OnOk result (out.new.items ≡ out.old.items ++ decimal number) }
{
    Ok(write!(out, "{number}")?)
}

/// Appends the mean with one decimal.
pub fn put_mean(out: &mut Vec<u8>, spread: &Spread) -> Result<(), Failure>
    ensures text { OnOk result (out.new.items ≡ out.old.items ++ mean_text spread.now) }
{
    let Some(tenths) = tenths_of(spread) else {
        return Err(Failure::Memory);
    };
    put_decimal(out, tenths / 10)?;
    put_text(out, ".")?;
    put_decimal(out, tenths % 10)
}

// Returns the mean in tenths, rounded to the nearest one, and up from the middle. There is none if
// there is no number, or if ten times the sum of the numbers doesn't fit.
fn tenths_of(spread: &Spread) -> Option<u64>
    ensures tenths { IfSome result (λ tenths. tenths ≡ tenths_of spread.now) }
{
    let ten_times = spread.total.checked_mul(10)?;
    ten_times
        .checked_add(spread.count / 2)?
        .checked_div(spread.count)
}
