//! Ranges as tokens of JSON.

ghost use Rattle.std.specs.Prelude.{◌≡◌, ◌<◌, ◌++◌, map, All, IsAscii, OnOk};
ghost use Rattle.json.specs.Tree.{json_tokens};
ghost use Rattle.keyspace.specs.storage.Fields.{range_fields};
ghost use Rattle.json_lines.specs.Written.{all_tokens, key_json, pair_json, range_json, list_json};

use crate::key_form::put_key_form;
use json::Writer;
use keys::is_single_key;
use keyspace::{RangeRef, RangesRef};
use std::alloc::AllocError;
use std::str;

/// Writes the ranges of a list.
pub fn put_ranges(
    writer: &mut Writer,
    form: &mut Vec<u8>,
    ranges: &RangesRef<'_>,
) -> Result<(), AllocError>
    ensures tokens { OnOk result (writer.new.tokens
        ≡ writer.old.tokens ++ (json_tokens (list_json range_json (map range_fields ranges.now)))) }
    ensures before { writer.new.before ≡ writer.old.before }
{
    writer.begin_array()?;
    each_range(writer, form, ranges)?;
    writer.end_array()?;
    Ok(())
}

fn each_range(
    writer: &mut Writer,
    form: &mut Vec<u8>,
    ranges: &RangesRef<'_>,
) -> Result<(), AllocError>
    ensures tokens { OnOk result (writer.new.tokens
        ≡ writer.old.tokens ++ (all_tokens range_json (map range_fields ranges.now))) }
    ensures before { writer.new.before ≡ writer.old.before }
{
    for index in 0..ranges.len() {
        put_range(writer, form, &ranges.get(index))?;
    }
    Ok(())
}

// Writes a range: the range of a single key as that key, and any other as a pair.
#[tactic(auto, unfolding(crate::specs::Written::range_json))]
fn put_range(
    writer: &mut Writer,
    form: &mut Vec<u8>,
    range: &RangeRef<'_>,
) -> Result<(), AllocError>
    ensures tokens { OnOk result (writer.new.tokens
        ≡ writer.old.tokens ++ (json_tokens (range_json (range_fields range.now)))) }
    ensures before { writer.new.before ≡ writer.old.before }
{
    if is_single_key(range.begin(), range.end()) {
        put_key(writer, form, range.begin())
    } else {
        put_pair(writer, form, range.begin(), range.end())
    }
}

fn put_pair(
    writer: &mut Writer,
    form: &mut Vec<u8>,
    begin: &[u8],
    end: &[u8],
) -> Result<(), AllocError>
    ensures tokens { OnOk result (writer.new.tokens
        ≡ writer.old.tokens ++ (json_tokens (pair_json begin.now end.now))) }
    ensures before { writer.new.before ≡ writer.old.before }
{
    writer.begin_array()?;
    put_key(writer, form, begin)?;
    put_key(writer, form, end)?;
    writer.end_array()?;
    Ok(())
}

/// Writes a key as a string: its printed form, which is put together in `form`. The memory of
/// `form` is reused.
pub fn put_key(writer: &mut Writer, form: &mut Vec<u8>, key: &[u8]) -> Result<(), AllocError>
    ensures tokens { OnOk result (writer.new.tokens
        ≡ writer.old.tokens ++ (json_tokens (key_json key.now))) }
    ensures before { writer.new.before ≡ writer.old.before }
{
    form.clear();
    put_key_form(form, key)?;
    writer.string(as_text(form))
}

// Returns the printed form of a key as text.
fn as_text(form: &[u8]) -> &str
    requires ascii { IsAscii form.now }
    ensures text { result.now ≡ form.now }
{
    match str::from_utf8(form) {
        Ok(text) => text,
        Err(_) => "",
    }
}
