//! How far a long file has come, for people.

ghost use Rattle.std.specs.Prelude.{◌≡◌, None};
ghost use Rattle.batches_tasks.specs.ErrorText.{ReportsText, progress_length};

use std::alloc::Global;
use wire::{Sink, write_all};

/// Files above this many bytes are long enough for their progress to be reported.
pub const LONG_FILE: u64 = 64 << 20;

/// Tells the progress through a file in hundredths, on a line that is written over. Tells nothing
/// if the length isn't known, or nobody watches.
#[derive(Debug, Drop)]
pub struct FileProgress {
    alloc: Global,
    length: Option<u64>,
    done: u64,
    reported: u64,
}

impl FileProgress {
    /// Creates the progress through a file of this length, if it must be reported.
    pub fn new(alloc: Global, length: Option<u64>) -> Self
        ensures length { progress_length result ≡ length }
    {
        FileProgress {
            alloc,
            length,
            done: 0,
            reported: 0,
        }
    }

    /// Counts that many bytes more. A failed write changes nothing.
    pub fn advance<E: Sink>(&mut self, error: &mut E, bytes: usize)
        ensures length { progress_length self.new ≡ progress_length self.old }
        ensures reported { ReportsText (E.given error.old) (E.given error.new)
            (E.failures error.old) (E.failures error.new) }
        ensures quiet { progress_length self.old ≡ None → error.new ≡ error.old }
    {
        self.done = self.done.saturating_add(bytes as u64);
        let Some(length) = self.length else {
            return;
        };
        let hundredths = self.done / (length / 100).max(1);
        if hundredths <= self.reported {
            return;
        }
        self.reported = hundredths;
        let shown = hundredths.min(100);
        if let Ok(text) = format!(in self.alloc; "\r{shown} %") {
            let _ = write_all(error, text.as_bytes());
        }
    }

    /// Ends the line of the progress, if anything was printed.
    pub fn finish<E: Sink>(&self, error: &mut E)
        ensures reported { ReportsText (E.given error.old) (E.given error.new)
            (E.failures error.old) (E.failures error.new) }
        ensures quiet { progress_length self.now ≡ None → error.new ≡ error.old }
    {
        if self.length.is_some() && self.reported > 0 {
            let _ = write_all(error, b"\n");
        }
    }
}
