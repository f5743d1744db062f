//! Numbers, keys and ranges, appended to a text.

ghost use Rattle.std.specs.Prelude.{◌≡◌, ◌++◌, OnOk, decimal, flat_map};
ghost use Rattle.std.specs.Fmt.{signed_decimal};
ghost use Rattle.replay_explanations.specs.Json.{byte_json, key_json, range_json};
ghost use Rattle.replay_explanations.specs.Lines.{range_form};

use itoa::Buffer;
use json_lines::{put_key_form, put_quoted_key};
use keys::RangeRef;
use std::alloc::AllocError;

// Appends an index or the number of a proxy.
pub(crate) fn put_number(out: &mut Vec<u8>, number: usize) -> Result<(), AllocError>
    ensures text { OnOk result (out.new.items ≡ out.old.items ++ decimal number) }
{
    let mut buffer = Buffer::new();
    out.extend_from_slice(buffer.format(number).as_bytes())
}

pub(crate) fn put_version(out: &mut Vec<u8>, version: i64) -> Result<(), AllocError>
    ensures text { OnOk result (out.new.items ≡ out.old.items ++ signed_decimal version) }
{
    let mut buffer = Buffer::new();
    out.extend_from_slice(buffer.format(version).as_bytes())
}

// Appends a range: its begin and its end.
pub(crate) fn put_range(out: &mut Vec<u8>, range: &RangeRef<'_>) -> Result<(), AllocError>
    ensures text { OnOk result (out.new.items ≡ out.old.items ++ range_form range.now) }
{
    out.push(b'[')?;
    put_quoted_key(out, range.begin())?;
    out.push(b',')?;
    put_quoted_key(out, range.end())?;
    Ok(out.push(b')')?)
}

// Appends a range as an array of JSON: its begin and its end.
pub(crate) fn put_range_json(out: &mut Vec<u8>, range: &RangeRef<'_>) -> Result<(), AllocError>
    ensures text { OnOk result (out.new.items ≡ out.old.items ++ range_json range.now) }
{
    out.push(b'[')?;
    put_key_json(out, range.begin())?;
    out.push(b',')?;
    put_key_json(out, range.end())?;
    Ok(out.push(b']')?)
}

// Appends a key in its printed form, as a string of JSON.
fn put_key_json(out: &mut Vec<u8>, key: &[u8]) -> Result<(), AllocError>
    ensures text { OnOk result (out.new.items ≡ out.old.items ++ key_json key.now) }
{
    out.push(b'"')?;
    put_bytes_json(out, key)?;
    Ok(out.push(b'"')?)
}

fn put_bytes_json(out: &mut Vec<u8>, key: &[u8]) -> Result<(), AllocError>
    ensures text { OnOk result (out.new.items
        ≡ out.old.items ++ flat_map byte_json key.now) }
{
    for byte in key {
        put_byte_json(out, *byte)?;
    }
    Ok(())
}

// Appends the printed form of a byte. JSON wants a backslash before each quote and backslash of it.
#[tactic(auto, unfolding(json_lines::specs::KeyForm::byte_form))]
fn put_byte_json(out: &mut Vec<u8>, byte: u8) -> Result<(), AllocError>
    ensures text { OnOk result (out.new.items ≡ out.old.items ++ byte_json byte) }
{
    if byte == b'\\' {
        return out.extend_from_slice(b"\\\\\\\\");
    }
    if byte == b'"' {
        return out.extend_from_slice(b"\\\"");
    }
    if 32 <= byte && byte < 127 {
        return Ok(out.push(byte)?);
    }
    out.push(b'\\')?;
    put_key_form(out, &[byte])
}
