//! The items of an array.

ghost use Rattle.std.specs.Prelude.{◌≡◌, ◌≤◌, IfOk, vec_len};
ghost use Rattle.json.specs.Find.{as_array};
ghost use Rattle.json.specs.Value.{value_view, items_view};
ghost use Rattle.json_lines.specs.Values.{Reads, items_at_most};

use crate::cause::Cause;
use crate::place::LinePlace;
use crate::refusal::LineRefusal;
use json::Value;

/// Returns the items of an array.
pub fn items_of<'v, 'a>(
    value: &'v Value<'a>,
    place: LinePlace,
) -> Result<&'v Vec<Value<'a>>, LineRefusal>
    ensures reads { Reads (λ items. items_view items.now.items) result
        (as_array (value_view value.now)) }
{
    match value {
        Value::Array(items) => Ok(items),
        _ => Err(LineRefusal::new(place, Cause::NotArray)),
    }
}

/// Returns the items of an array that has at most n of them, or the cause of the refusal.
pub fn few_items_of<'v, 'a>(
    value: &'v Value<'a>,
    limit: usize,
    many: Cause,
    place: LinePlace,
) -> Result<&'v Vec<Value<'a>>, LineRefusal>
    ensures reads { Reads (λ items. items_view items.now.items) result
        (items_at_most limit (value_view value.now)) }
    ensures few { IfOk result (λ items. vec_len items.now ≤ limit) }
{
    let items = items_of(value, place)?;
    if items.len() > limit {
        return Err(LineRefusal::new(place, many));
    }
    Ok(items)
}
