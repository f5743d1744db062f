//! The versions of the batches, by their numbers from 0.

ghost use Rattle.std.specs.Prelude.{◌≡◌, ◌≤◌, ◌<◌, ◌-◌, ◌≤ℤ◌, ◌<ℤ◌, negsuc};
ghost use Rattle.workload_program.specs.Versions.{version_of};

use crate::shape::Shape;

/// Returns the version of the batch of this number.
pub fn version(shape: Shape, number: u32) -> i64
    ensures version { result ≡ version_of shape number }
{
    match shape {
        Shape::SkipListTest => i64::from(number) * 100_000,
        Shape::Points => i64::from(number) * 20_000,
    }
}

/// Returns the version of the batch n batches before, or -1 if there is none.
pub fn version_before(shape: Shape, number: u32, count: u32) -> i64
    requires some { 1 ≤ count }
    ensures none { number < count → result ≡ negsuc 0 }
    ensures version { count ≤ number → result ≡ version_of shape (number - count) }
    ensures least { negsuc 0 ≤ℤ result }
    ensures below { result <ℤ version_of shape number }
{
    match number.checked_sub(count) {
        Some(before) => version(shape, before),
        None => -1,
    }
}
