//! Numbers and truth values.

ghost use Rattle.std.specs.Prelude.{◌≡◌};
ghost use Rattle.json.specs.Find.{as_bool};
ghost use Rattle.json.specs.Value.{value_view};
ghost use Rattle.json_lines.specs.Values.{Reads, number_in};

use crate::cause::Cause;
use crate::place::LinePlace;
use crate::refusal::LineRefusal;
use json::Value;

/// Reads an integer.
pub fn number_of(value: &Value<'_>, place: LinePlace) -> Result<i64, LineRefusal>
    ensures reads { Reads (λ n. n) result (number_in (value_view value.now)) }
{
    match value.as_i64() {
        Some(number) => Ok(number),
        None => Err(LineRefusal::new(place, number_fault(value))),
    }
}

// Returns why a value is no integer of 64 bits.
fn number_fault(value: &Value<'_>) -> Cause {
    if value.as_number().is_some() {
        Cause::NotInteger
    } else {
        Cause::NotNumber
    }
}

/// Reads a truth value.
pub fn bool_of(value: &Value<'_>, place: LinePlace) -> Result<bool, LineRefusal>
    ensures reads { Reads (λ b. b) result (as_bool (value_view value.now)) }
{
    match value.as_bool() {
        Some(truth) => Ok(truth),
        None => Err(LineRefusal::new(place, Cause::NotBool)),
    }
}
