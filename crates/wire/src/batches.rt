//! Streams of batches.

ghost use Rattle.std.specs.Prelude.{◌≡◌, ◌≢◌, ℕ, ◌<◌, ◌↔◌, Option, Some, None, Err, map};
ghost use Rattle.std.specs.Prelude.{IfOk, IfErr, IfSome, IfNone, IsErrOf, OnErr, OnOk};
ghost use Rattle.std.specs.Io.KnownBytes.{IsAtEnd};
ghost use Rattle.std.specs.List.{All};
ghost use Rattle.keyspace.specs.declared.batch.Batch.{Batch as BatchValue};
ghost use Rattle.wire.specs.declared.error.WireError.{WireError as Fault};
ghost use Rattle.wire.specs.Frames.{frames_reader, refusal_of};
ghost use Rattle.wire.specs.NextFrame.{TakesFrame};
ghost use Rattle.wire.specs.Batches.{IsFaultAt};

use crate::error::WireError;
use crate::frames::{Frames, read_frames};
use crate::source::Source;
use keyspace::Batch;
use std::alloc::{AllocError, Global};

/// A stream of batches, such as the frames of a file.
pub trait Batches {
    // Between these states one batch was given.
    ghost gives: { Self → Self → BatchValue → Type 0 };

    // Between these states a call gave no batch.
    ghost stays: { Self → Self → Type 0 };

    // No batch is left.
    ghost is_at_end: { Self → Type 0 };

    // The remaining input begins with this fault, which isn't one of memory or of reading.
    ghost is_at_fault: { Self → Fault → Type 0 };

    // The refusal that ended the stream.
    ghost refusal: { Self → Option Fault };

    // How often reading has failed.
    ghost failures: { Self → ℕ };

    /// Returns the next batch, or `None` at the end. Returns `Read` only if reading
    /// failed in this call. After a refusal every later call returns the same refusal.
    fn next(&mut self) -> Result<Option<Batch>, WireError>
        ensures batch { IfOk result (λ found. IfSome found (gives self.old self.new)) }
        ensures end { IfOk result (λ found. IfNone found
            (is_at_end self.old × stays self.old self.new)) }
        ensures fault { refusal self.old ≡ None → IfErr result (λ e.
            e ≢ WireError.Memory → e ≢ WireError.Read → is_at_fault self.old e) }
        ensures stays { OnErr result (stays self.old self.new) }
        ensures read { refusal self.old ≡ None → (IsErrOf result WireError.Read
            ↔ (failures self.old < failures self.new)) }
        ensures refused { IfSome (refusal self.old) (λ e. result ≡ Err e) }
        ensures err { IfErr result (λ e. refusal self.new ≡ Some e) }
        ensures ok { OnOk result (refusal self.new ≡ None) }
        ensures steady { OnOk result (failures self.new ≡ failures self.old) };
}

impl<S: Source> Batches for Frames<S> {
    ghost gives = { λ old new. TakesFrame (S.remaining (frames_reader old))
        (S.remaining (frames_reader new)) };

    ghost stays = { λ _ _. Unit {0} };

    ghost is_at_end = { λ frames. IsAtEnd (S.remaining (frames_reader frames)) };

    ghost is_at_fault = { λ frames. IsFaultAt (S.remaining (frames_reader frames)) };

    ghost refusal = { refusal_of };

    ghost failures = { λ frames. S.failures (frames_reader frames) };

    fn next(&mut self) -> Result<Option<Batch>, WireError> {
        Frames::next(self)
    }
}

/// Returns the frames of each reader. Reads nothing yet.
pub fn frames_each<S: Source + Drop>(
    alloc: Global,
    readers: Vec<S>,
) -> Result<Vec<Frames<S>>, AllocError>
    ensures readers { IfOk result (λ each. map frames_reader each.items ≡ readers.items) }
    ensures fresh { IfOk result (λ each. All (λ frames. refusal_of frames ≡ None) each.items) }
{
    let mut each = Vec::with_capacity(alloc, readers.len())?;
    for reader in readers {
        each.push_reserved(read_frames(alloc, reader));
    }
    Ok(each)
}
