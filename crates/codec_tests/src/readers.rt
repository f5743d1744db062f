//! Readers that give their bytes in pieces, and may fail.

use std::io;
use std::io::{ErrorKind, Read};

/// A reader that gives at most `step` bytes per call. At the end it fails if `fails` is set.
#[derive(Drop)]
pub(crate) struct Pieces<'a> {
    pub(crate) bytes: &'a [u8],
    pub(crate) step: usize,
    pub(crate) fails: bool,
}

impl Read for Pieces<'_> {
    fn read(&mut self, buffer: &mut [u8]) -> io::Result<usize> {
        if self.fails && self.bytes.is_empty() {
            return Err(io::Error::from(ErrorKind::Other));
        }
        let count = self.step.min(buffer.len()).min(self.bytes.len());
        let (front, rest) = self.bytes.split_at(count);
        buffer[..count].copy_from_slice(front);
        self.bytes = rest;
        Ok(count)
    }
}
