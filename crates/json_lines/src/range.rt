//! Ranges.

ghost use Rattle.std.specs.Prelude.{◌≡◌, ◌≤◌, map, length, IfOk};
ghost use Rattle.json.specs.Value.{value_view, items_view};
ghost use Rattle.keys.specs.declared.key.TheConstants.{MAX_KEY_LENGTH};
ghost use Rattle.keyspace.specs.storage.Fields.{range_fields};
ghost use Rattle.keyspace.specs.declared.txn.TheConstants.{MAX_RANGES};
ghost use Rattle.json_lines.specs.Ranges.{key_in, range_in, pair_in, single_in, ranges_in};
ghost use Rattle.json_lines.specs.Values.{Reads, each};

use crate::cause::Cause;
use crate::items::few_items_of;
use crate::key_form::key_of;
use crate::place::LinePlace;
use crate::refusal::LineRefusal;
use json::Value;
use keys::{Key, MAX_KEY_LENGTH, MAX_SINGLE_KEY_LENGTH, Range};
use keyspace::MAX_RANGES;
use std::alloc::Global;

/// Reads the ranges of a list.
#[tactic(auto, unfolding(crate::specs::Values::list_in))]
pub fn ranges_of(
    alloc: Global,
    value: &Value<'_>,
    place: LinePlace,
) -> Result<Vec<Range>, LineRefusal>
    ensures reads { Reads (λ ranges. map range_fields ranges.items) result
        (ranges_in (value_view value.now)) }
    ensures few { IfOk result (λ ranges. length ranges.items ≤ MAX_RANGES) }
{
    let items = few_items_of(value, MAX_RANGES, Cause::ManyRanges, place)?;
    each_range(alloc, items, place)
}

fn each_range(
    alloc: Global,
    items: &[Value<'_>],
    place: LinePlace,
) -> Result<Vec<Range>, LineRefusal>
    ensures reads { Reads (λ ranges. map range_fields ranges.items) result
        (each range_in (items_view items.now)) }
    ensures count { IfOk result (λ ranges. length ranges.items ≡ length items.now) }
{
    let mut ranges = Vec::with_capacity(alloc, items.len())?;
    for index in 0..items.len() {
        ranges.push(range_of(alloc, &items[index], place.item(index))?)?;
    }
    Ok(ranges)
}

fn range_of(alloc: Global, value: &Value<'_>, place: LinePlace) -> Result<Range, LineRefusal>
    ensures reads { Reads range_fields result (range_in (value_view value.now)) }
{
    match value {
        Value::String(text) => single_of(alloc, text, place),
        Value::Array(items) => pair_of(alloc, items, place),
        _ => Err(LineRefusal::new(place, Cause::NotRange)),
    }
}

// Reads the range of a single key.
fn single_of(alloc: Global, text: &str, place: LinePlace) -> Result<Range, LineRefusal>
    ensures reads { Reads range_fields result (single_in text.now) }
{
    let key = key_of(alloc, text, MAX_SINGLE_KEY_LENGTH, place)?;
    let mut end = Vec::with_capacity(alloc, key.len() + 1)?;
    end.extend_from_slice(&key)?;
    end.push(0)?;
    Ok(Range::new(Key::new(key), Key::new(end)))
}

// Reads the range between two keys.
#[tactic(auto, unfolding(crate::specs::Ranges::pair_in, crate::specs::Ranges::ends_in))]
fn pair_of(alloc: Global, items: &[Value<'_>], place: LinePlace) -> Result<Range, LineRefusal>
    ensures reads { Reads range_fields result (pair_in (items_view items.now)) }
{
    if items.len() != 2 {
        return Err(LineRefusal::new(place, Cause::NotRange));
    }
    let begin = end_of(alloc, &items[0], place.item(0))?;
    let end = end_of(alloc, &items[1], place.item(1))?;
    if end < begin {
        return Err(LineRefusal::new(place, Cause::Inverted));
    }
    Ok(Range::new(begin, end))
}

// Reads one of the two keys of a pair.
fn end_of(alloc: Global, value: &Value<'_>, place: LinePlace) -> Result<Key, LineRefusal>
    ensures reads { Reads (λ key. key) result (key_in (value_view value.now)) }
{
    let Some(text) = value.as_str() else {
        return Err(LineRefusal::new(place, Cause::NotString));
    };
    Ok(Key::new(key_of(alloc, text, MAX_KEY_LENGTH, place)?))
}
