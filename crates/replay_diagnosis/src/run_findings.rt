//! What is to be said about a run.

use crate::position::Position;
use wire::WireError;

/// What is to be said about a file of a run that failed.
#[derive(Clone, Copy, Debug, PartialEq, Eq)]
pub enum Finding {
    /// The file can't be opened. [`examine`](crate::examine) never returns this.
    CannotOpen,
    /// The file is standard input, whose bytes are gone. [`examine`](crate::examine) never returns
    /// this.
    StandardInput,
    /// Memory was refused, or the frames or bytes are more than 64 bits can count.
    Memory,
    /// Reading failed. The frames before the position are those of batches.
    Unreadable(Position),
    /// The file begins as JSON does.
    Json,
    /// The frame at the position is that of a reply.
    Reply(Position),
    /// The file ends inside the frame at the position.
    Truncated {
        position: Position,
        /// The number of bytes that the frame lacks, or, if its length is incomplete, that the
        /// length lacks.
        missing: u64,
    },
    /// The bytes at the position have this fault, and are no frame of a batch or a reply.
    NotAFrame(Position, WireError),
}

/// What is to be said about a run, and about no single file. All but the first are of a run that
/// failed.
#[derive(Clone, Copy, Debug, PartialEq, Eq)]
pub enum RunFinding {
    /// No batch follows version -1, so each is held. This is the least version that one follows.
    AllHeld(i64),
    /// The gate is full, although a batch follows version -1.
    GateFull,
    /// The committed writes may need more boundaries than the limit.
    ArenaFull {
        /// The version of the last batch that was processed, or -1.
        version: i64,
        /// The most boundaries, as `--limit` gives them.
        limit: usize,
    },
    /// The output couldn't be written: standard output, or the file for it.
    Output,
}
