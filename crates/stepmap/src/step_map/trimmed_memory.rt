//! A step map gives back memory that its boundaries don't need.

ghost use Rattle.std.specs.Prelude.{◌≡◌};

use super::StepMap;
use limits::MAX_LIMIT;
use std::alloc::{AllocError, Global};
use std::collections::VecDeque;

impl StepMap {
    /// Copies the boundaries into new memory with room for few more, and frees the memory that they
    /// had. The map stays as it is, also if memory is refused for the copy. It takes about as long
    /// as writing each boundary once. The filter keeps its memory.
    ///
    /// It does nothing while ranges are ready to be written, or if there are [`MAX_LIMIT`]
    /// boundaries.
    pub fn trim(&mut self, alloc: Global) -> Result<(), AllocError>
        ensures same { self.new ≡ self.old }
    {
        if !self.ready.is_empty() || self.boundaries.len() >= MAX_LIMIT {
            return Ok(());
        }
        self.boundaries = self.boundaries.copied(alloc)?;
        self.ready = VecDeque::new(alloc);
        Ok(())
    }
}
