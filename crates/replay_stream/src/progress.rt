//! What the sender of a proxy learns from other threads.

use std::sync::atomic::{AtomicBool, AtomicU64, Ordering};

/// How far the answers to a proxy have come, for its sender to see. No clause can say what another
/// thread has stored.
#[derive(Drop)]
pub struct AnswerProgress {
    answered: AtomicU64,
    ended: AtomicBool,
}

impl AnswerProgress {
    /// Creates the progress of a proxy that has got no answer.
    pub fn new() -> Self {
        AnswerProgress {
            answered: AtomicU64::new(0),
            ended: AtomicBool::new(false),
        }
    }

    /// Tells that n answers were taken.
    pub fn report(&self, answered: u64) {
        self.answered.store(answered, Ordering::SeqCst);
    }

    /// Says that the proxy sends no more: its answers have ended, or its records can't be written.
    pub fn end(&self) {
        self.ended.store(true, Ordering::SeqCst);
    }

    /// Returns the last reported number of answers taken.
    pub fn answered(&self) -> u64 {
        self.answered.load(Ordering::SeqCst)
    }

    /// Returns whether [`end`](Self::end) said that the proxy sends no more.
    pub fn has_ended(&self) -> bool {
        self.ended.load(Ordering::SeqCst)
    }
}
