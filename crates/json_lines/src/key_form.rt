//! Keys as text.

ghost use Rattle.std.specs.Prelude.{◌≡◌, ◌<◌, ◌++◌, ◌∷◌, [], ◌≤◌, IfOk, IfSome, OnOk, length};
ghost use Rattle.std.specs.Prelude.{vec_len, option_map};
ghost use Rattle.std.specs.Char.{digit_char};
ghost use Rattle.json_lines.specs.KeyForm.{is_printable, byte_form, key_form, hex_value, number_at};
ghost use Rattle.json_lines.specs.KeyForm.{escaped_at, byte_at, quoted_key, spelled_key};
ghost use Rattle.keys.specs.declared.key.TheConstants.{MAX_KEY_LENGTH};
ghost use Rattle.json_lines.specs.Ranges.{IsKeyLine, key_within};
ghost use Rattle.json_lines.specs.Values.{Reads};

use crate::cause::Cause;
use crate::place::LinePlace;
use crate::refusal::LineRefusal;
use keys::{Key, MAX_KEY_LENGTH};
use std::alloc::{AllocError, Global};

/// Appends the printed form of a key.
pub fn put_key_form(out: &mut Vec<u8>, key: &[u8]) -> Result<(), AllocError>
    ensures text { OnOk result (out.new.items ≡ out.old.items ++ key_form key.now) }
{
    for byte in key {
        put_byte_form(out, *byte)?;
    }
    Ok(())
}

/// Appends the printed form of a key, in quotes.
pub fn put_quoted_key(out: &mut Vec<u8>, key: &[u8]) -> Result<(), AllocError>
    ensures text { OnOk result (out.new.items ≡ out.old.items ++ quoted_key key.now) }
{
    out.push(b'"')?;
    put_key_form(out, key)?;
    Ok(out.push(b'"')?)
}

#[tactic(auto, unfolding(crate::specs::KeyForm::byte_form))]
fn put_byte_form(out: &mut Vec<u8>, byte: u8) -> Result<(), AllocError>
    ensures text { OnOk result (out.new.items ≡ out.old.items ++ byte_form byte) }
{
    if byte == b'\\' {
        return out.extend_from_slice(b"\\\\");
    }
    if is_printable(byte) {
        return Ok(out.push(byte)?);
    }
    out.extend_from_slice(&[b'\\', b'x', digit(byte / 16), digit(byte % 16)])
}

fn is_printable(byte: u8) -> bool
    ensures exact { result ≡ is_printable byte }
{
    32 <= byte && byte < 127
}

// Returns the hexadecimal digit of a number below 16.
fn digit(number: u8) -> u8
    requires below { number < 16 }
    ensures digit { result ≡ digit_char number }
{
    if number < 10 {
        b'0' + number
    } else {
        b'a' + (number - 10)
    }
}

// Returns the value of a hexadecimal digit, in either case.
fn digit_value(digit: u8) -> Option<u8>
    ensures exact { result ≡ hex_value digit }
{
    match digit {
        b'0'..=b'9' => Some(digit - b'0'),
        b'a'..=b'f' => Some(digit - b'a' + 10),
        b'A'..=b'F' => Some(digit - b'A' + 10),
        _ => None,
    }
}

// Returns the byte that two hexadecimal digits at the front spell, and what follows them.
fn number_at(text: &[u8]) -> Option<(u8, &[u8])>
    ensures exact { option_map (λ x. (x.0, x.1.now)) result ≡ number_at text.now }
    ensures shorter { IfSome result (λ x. length x.1.now < length text.now) }
{
    let (high, rest) = text.split_first()?;
    let (low, rest) = rest.split_first()?;
    let high = digit_value(*high)?;
    let low = digit_value(*low)?;
    Some((high * 16 + low, rest))
}

// Does the same after a backslash, where a second backslash may follow.
fn escaped_at(text: &[u8]) -> Option<(u8, &[u8])>
    ensures exact { option_map (λ x. (x.0, x.1.now)) result ≡ escaped_at text.now }
    ensures shorter { IfSome result (λ x. length x.1.now < length text.now) }
{
    let (first, rest) = text.split_first()?;
    match *first {
        b'\\' => Some((b'\\', rest)),
        b'x' => number_at(rest),
        _ => None,
    }
}

// Returns the byte that the front of a text spells, and what follows it.
#[tactic(auto, unfolding(crate::specs::KeyForm::byte_at))]
fn byte_at(text: &[u8]) -> Option<(u8, &[u8])>
    ensures exact { option_map (λ x. (x.0, x.1.now)) result ≡ byte_at text.now }
    ensures shorter { IfSome result (λ x. length x.1.now < length text.now) }
{
    let (first, rest) = text.split_first()?;
    if *first == b'\\' {
        return escaped_at(rest);
    }
    if is_printable(*first) {
        Some((*first, rest))
    } else {
        None
    }
}

// Returns why the front of a text spells no byte.
fn fault_of(text: &[u8]) -> Cause {
    match text.first() {
        Some(b'\\') => Cause::Escape,
        _ => Cause::NotPrintable,
    }
}

/// Reads a key from its printed form. The place of a refusal is the line.
pub fn read_key(alloc: Global, text: &[u8]) -> Result<Key, LineRefusal>
    ensures reads { Reads (λ key. key) result (key_within MAX_KEY_LENGTH text.now) }
{
    Ok(Key::new(key_within(alloc, text, MAX_KEY_LENGTH, LinePlace::Line)?))
}

/// Reads the key of a line, which is its printed form with or without a line feed.
pub fn read_key_line(alloc: Global, line: &[u8]) -> Result<Key, LineRefusal>
    ensures key { IfOk result (IsKeyLine line.now) }
{
    match line.split_last() {
        Some((b'\n', text)) => read_key(alloc, text),
        _ => read_key(alloc, line),
    }
}

/// Reads a key of at most n bytes from its text.
pub fn key_of(
    alloc: Global,
    text: &str,
    limit: usize,
    place: LinePlace,
) -> Result<Vec<u8>, LineRefusal>
    ensures reads { Reads (λ key. key.items) result (key_within limit text.now) }
    ensures short { IfOk result (λ key. vec_len key ≤ limit) }
{
    key_within(alloc, text.as_bytes(), limit, place)
}

#[tactic(auto, unfolding(crate::specs::Ranges::key_within))]
fn key_within(
    alloc: Global,
    text: &[u8],
    limit: usize,
    place: LinePlace,
) -> Result<Vec<u8>, LineRefusal>
    ensures reads { Reads (λ key. key.items) result (key_within limit text.now) }
    ensures short { IfOk result (λ key. vec_len key ≤ limit) }
{
    let key = bytes_of(alloc, text, place)?;
    if key.len() > limit {
        let cause = if limit == MAX_KEY_LENGTH {
            Cause::KeyLength
        } else {
            Cause::SingleKeyLength
        };
        return Err(LineRefusal::new(place, cause));
    }
    Ok(key)
}

// Reads a key from its text.
fn bytes_of(alloc: Global, text: &[u8], place: LinePlace) -> Result<Vec<u8>, LineRefusal>
    ensures reads { Reads (λ key. key.items) result (spelled_key text.now) }
{
    let mut key = Vec::new(alloc);
    let mut rest = text;
    while !rest.is_empty() {
        let Some((byte, after)) = byte_at(rest) else {
            return Err(LineRefusal::new(place, fault_of(rest)));
        };
        key.push(byte)?;
        rest = after;
    }
    Ok(key)
}
