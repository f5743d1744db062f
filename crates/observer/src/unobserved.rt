//! The observer that keeps nothing.

use crate::Observer;
use keyspace::{Batch, Reply};
use std::alloc::AllocError;

/// Keeps nothing of what it sees.
#[derive(Clone, Copy, Debug, PartialEq, Eq)]
pub struct Unobserved;

impl Observer for Unobserved {
    ghost has_seen = { λ _ _. Unit {0} };

    ghost Setting = { Unit {0} };

    ghost setting = { λ _. tt };

    fn see(&mut self, _proxy: usize, _batch: Batch, _reply: &Reply) -> Result<(), AllocError> {
        Ok(())
    }
}
