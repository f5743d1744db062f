//! How much of a long file was read, for people.

use std::alloc::Global;
use std::io::Write;
use std::rt::Stderr;

/// Files above this many bytes are long enough for their progress to be shown.
pub const LONG_FILE: u64 = 64 << 20;

const MEBIBYTE: u64 = 1 << 20;

/// Shows on a terminal how much of a file was read. What is printed next there is printed over it.
/// A failed write changes nothing.
#[derive(Drop)]
pub struct Progress {
    alloc: Global,
    terminal: Stderr,
    length: u64,
    read: u64,
    // what the terminal shows, in hundredths of the length
    shown: u64,
}

impl Progress {
    /// Creates the progress through a file of this many bytes. Shows nothing yet.
    pub fn new(alloc: Global, terminal: Stderr, length: u64) -> Self {
        Progress {
            alloc,
            terminal,
            length,
            read: 0,
            shown: 0,
        }
    }

    /// Counts the bytes of one read. If there are none, the file was read to its end, and what is
    /// shown is cleared.
    pub fn advance(&mut self, bytes: usize) {
        if bytes == 0 {
            return self.clear();
        }
        self.read = self.read.saturating_add(bytes as u64);
        let hundredths = self.read / (self.length / 100).max(1);
        if hundredths > self.shown {
            self.shown = hundredths;
            self.show();
        }
    }

    fn show(&mut self) {
        let read = self.read / MEBIBYTE;
        let length = self.length / MEBIBYTE;
        if let Ok(text) = format!(in self.alloc; "{read} of {length} MiB\r") {
            let _ = self.terminal.write_all(text.as_bytes());
        }
    }

    fn clear(&mut self) {
        if self.shown > 0 {
            self.shown = 0;
            let _ = self.terminal.write_all(b"                        \r");
        }
    }
}
