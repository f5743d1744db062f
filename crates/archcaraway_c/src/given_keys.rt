//! The keys that C gives as split points.

ghost use Rattle.std.specs.Prelude.{◌≡◌, ◌<◌, IfOk, IfErr};
ghost use Rattle.archcaraway_c.specs.Points.{keys_given, KeysRefuse};

use crate::points_refusal::PointsRefusal;
use keys::{Key, MAX_KEY_LENGTH};
use std::alloc::Global;

/// Copies keys of these lengths, which are one by one among the bytes. Refuses the first key that
/// it can't copy, with its index: with `KeyLength` if it is too long, `Argument` if the bytes end
/// before it does, or `Memory` if an allocation fails.
pub fn copy_keys(alloc: Global, bytes: &[u8], lengths: &[usize]) -> Result<Vec<Key>, PointsRefusal>
    ensures keys { IfOk result (λ keys. keys.items ≡ keys_given bytes.now lengths.now) }
    ensures refused { IfErr result (λ refusal. KeysRefuse bytes.now lengths.now refusal) }
{
    let mut keys = Vec::new(alloc);
    let mut rest = bytes;
    for (index, count) in lengths.iter().enumerate() {
        if *count > MAX_KEY_LENGTH {
            return Err(PointsRefusal::KeyLength(index));
        }
        if *count > rest.len() {
            return Err(PointsRefusal::Argument);
        }
        let (front, later) = rest.split_at(*count);
        let Ok(key) = Key::copied(alloc, front) else {
            return Err(PointsRefusal::Memory);
        };
        let Ok(()) = keys.push(key) else {
            return Err(PointsRefusal::Memory);
        };
        rest = later;
    }
    Ok(keys)
}
