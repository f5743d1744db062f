//! How a worker waits.

use std::sync::Wait;
use std::thread::Parker;
use std::time::Duration;

// So many microseconds a worker rests where its lane is full or has no answer. Most batches take
// longer.
const REST: u64 = 50;

/// Waits a moment without a processor, so that the resolver has one.
pub fn pause<R: Wait>(rt: &R) {
    Parker::new().park_timeout(rt, Duration::from_micros(REST));
}
