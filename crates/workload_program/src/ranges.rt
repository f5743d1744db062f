//! Keys and ranges of keys, by numbers.

ghost use Rattle.std.specs.Prelude.{◌≡◌, All, IfErr, IfOk, vec_len};
ghost use Rattle.workload_program.specs.Txns.{numbered_key, point, IsRangeOf};

use crate::fault::Fault;
use crate::random::Random;
use crate::shape::Shape;
use keys::{Key, Range};
use std::alloc::Global;

// A key of 16 bytes: a fixed text, then the number.
fn numbered_key(alloc: Global, number: u64) -> Result<Key, Fault>
    ensures key { IfOk result (λ key. key ≡ numbered_key number) }
    ensures memory { IfErr result (λ fault. fault ≡ Fault.Memory) }
{
    let mut bytes = Vec::from_slice(alloc, b"workload")?;
    bytes.extend_from_slice(&number.to_be_bytes())?;
    Ok(Key::checked(bytes)?)
}

// The bytes of a key of 8 to 24 bytes: the number, then a filling whose length the number settles.
fn point(alloc: Global, number: u64) -> Result<Vec<u8>, Fault>
    ensures point { IfOk result (λ bytes. bytes.items ≡ point number) }
    ensures memory { IfErr result (λ fault. fault ≡ Fault.Memory) }
{
    let mut bytes = Vec::from_slice(alloc, &number.to_be_bytes())?;
    bytes.resize(bytes.len() + (number % 17) as usize, b'.')?;
    Ok(bytes)
}

/// Draws the next range of keys. Only memory may be refused.
pub fn draw_range(alloc: Global, random: &mut Random, shape: Shape) -> Result<Range, Fault>
    ensures range { IfOk result (IsRangeOf shape) }
    ensures memory { IfErr result (λ fault. fault ≡ Fault.Memory) }
{
    let number = shape.draw(random);
    match shape {
        Shape::SkipListTest => {
            let begin = numbered_key(alloc, number)?;
            let width = 1 + random.below(10);
            let end = numbered_key(alloc, number + width)?;
            Ok(Range::checked(begin, end)?)
        }
        Shape::Points => {
            let begin = Key::checked(point(alloc, number)?)?;
            let mut end = point(alloc, number)?;
            end.push(0)?;
            Ok(Range::checked(begin, Key::checked(end)?)?)
        }
    }
}

/// Draws `count` ranges. Only memory may be refused.
pub fn draw_ranges(
    alloc: Global,
    random: &mut Random,
    shape: Shape,
    count: usize,
) -> Result<Vec<Range>, Fault>
    ensures count { IfOk result (λ ranges. vec_len ranges ≡ count) }
    ensures each { IfOk result (λ ranges. All (IsRangeOf shape) ranges.items) }
    ensures memory { IfErr result (λ fault. fault ≡ Fault.Memory) }
{
    let mut ranges = Vec::with_capacity(alloc, count)?;
    for _ in 0..count {
        ranges.push(draw_range(alloc, random, shape)?)?;
    }
    Ok(ranges)
}
