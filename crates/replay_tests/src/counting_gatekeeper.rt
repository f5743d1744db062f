//! A gatekeeper that counts.

use replay_program::Gatekeeper;
use std::sync::atomic::{AtomicU64, Ordering};

/// Lets every batch of two proxies pass, and counts for each the batches that it has read and the
/// answers that it has taken.
#[derive(Drop)]
pub struct Counting {
    read: [AtomicU64; 2],
    taken: [AtomicU64; 2],
}

impl Counting {
    pub fn new() -> Self {
        Counting {
            read: [AtomicU64::new(0), AtomicU64::new(0)],
            taken: [AtomicU64::new(0), AtomicU64::new(0)],
        }
    }

    /// Returns the number of batches that the proxy has read.
    pub fn read(&self, proxy: usize) -> u64 {
        count(&self.read, proxy)
    }

    /// Returns the number of answers that the proxy has taken.
    pub fn taken(&self, proxy: usize) -> u64 {
        count(&self.taken, proxy)
    }
}

impl Gatekeeper for Counting {
    fn may_send(&self, proxy: usize, place: u64) -> bool {
        count_to(&self.read, proxy, place);
        true
    }

    fn answered(&self, proxy: usize, place: u64) {
        count_to(&self.taken, proxy, place);
    }
}

fn count(counts: &[AtomicU64; 2], proxy: usize) -> u64 {
    match counts.get(proxy) {
        Some(count) => count.load(Ordering::SeqCst),
        None => 0,
    }
}

fn count_to(counts: &[AtomicU64; 2], proxy: usize, place: u64) {
    if let Some(count) = counts.get(proxy) {
        count.store(place.saturating_add(1), Ordering::SeqCst);
    }
}
