//! The batches of a reader, frame after frame.

ghost use Rattle.std.specs.Prelude.{◌≡◌, ◌≢◌, ◌<◌, ◌↔◌, IfOk, IfErr, IfSome, IfNone, OnOk, IsSome};
ghost use Rattle.std.specs.Prelude.{IsErrOf, Some, None};
ghost use Rattle.std.specs.Io.KnownBytes.{IsAtEnd};
ghost use Rattle.wire.specs.NextFrame.{TakesFrame, TakesPart, IsFaultOf};
ghost use Rattle.wire.specs.Frames.{frames_reader, refusal_of};

use crate::batch::{tables_of, unordered_of};
use crate::error::WireError;
use crate::fill::fill_frame;
use crate::source::Source;
use keyspace::{Batch, UnorderedBatch};
use std::alloc::Global;

/// Iterates over the batches of a reader, frame after frame. Reads no byte beyond the frame that is
/// asked for.
#[derive(Debug, Drop)]
pub struct Frames<R> {
    reader: R,
    alloc: Global,
    // The refusal that ended the frames.
    refusal: Option<WireError>,
}

/// Returns the frames of a reader. Reads nothing yet.
pub fn read_frames<R: Source>(alloc: Global, reader: R) -> Frames<R>
    ensures reader { frames_reader result ≡ reader }
    ensures fresh { refusal_of result ≡ None }
{
    Frames {
        reader,
        alloc,
        refusal: None,
    }
}

/// Returns the batch of the next frame, or `None` at the end of the input, without ordering its
/// ranges. The batch keeps the buffer that the frame was read into.
pub fn read_unordered<R: Source>(
    alloc: Global,
    reader: &mut R,
) -> Result<Option<UnorderedBatch>, WireError>
    ensures batch { IfOk result (λ found. IfSome found
        (TakesFrame (R.remaining reader.old) (R.remaining reader.new))) }
    ensures end { IfOk result (λ found. IfNone found
        (IsAtEnd (R.remaining reader.old) × IsAtEnd (R.remaining reader.new))) }
    ensures fault { IfErr result (λ e. e ≢ WireError.Memory → e ≢ WireError.Read
        → IfSome (R.remaining reader.old) (IsFaultOf e)) }
    ensures part { IfErr result (TakesPart (R.remaining reader.old) (R.remaining reader.new)) }
    ensures ok { OnOk result (R.failures reader.new ≡ R.failures reader.old) }
    ensures read { IfErr result (λ e. e ≡ WireError.Read
        → R.failures reader.old < R.failures reader.new) }
    ensures others { IfErr result (λ e. e ≢ WireError.Read
        → R.failures reader.new ≡ R.failures reader.old) }
    ensures never_write { IfErr result (λ e. e ≢ WireError.Write) }
{
    let mut frame = Vec::new(alloc);
    fill_frame(reader, &mut frame)?;
    if frame.is_empty() {
        return Ok(None);
    }
    let (_, tables, _) = tables_of(alloc, &frame)?;
    let batch = unordered_of(frame, tables)?;
    Ok(Some(batch))
}

/// Returns the batch of the next frame, or `None` at the end of the input. The batch keeps the
/// buffer that the frame was read into.
pub fn read_next<R: Source>(alloc: Global, reader: &mut R) -> Result<Option<Batch>, WireError>
    ensures batch { IfOk result (λ found. IfSome found
        (TakesFrame (R.remaining reader.old) (R.remaining reader.new))) }
    ensures end { IfOk result (λ found. IfNone found
        (IsAtEnd (R.remaining reader.old) × IsAtEnd (R.remaining reader.new))) }
    ensures fault { IfErr result (λ e. e ≢ WireError.Memory → e ≢ WireError.Read
        → IfSome (R.remaining reader.old) (IsFaultOf e)) }
    ensures part { IfErr result (TakesPart (R.remaining reader.old) (R.remaining reader.new)) }
    ensures ok { OnOk result (R.failures reader.new ≡ R.failures reader.old) }
    ensures read { IfErr result (λ e. e ≡ WireError.Read
        → R.failures reader.old < R.failures reader.new) }
    ensures others { IfErr result (λ e. e ≢ WireError.Read
        → R.failures reader.new ≡ R.failures reader.old) }
    ensures never_write { IfErr result (λ e. e ≢ WireError.Write) }
{
    let Some(batch) = read_unordered(alloc, reader)? else {
        return Ok(None);
    };
    match batch.order(alloc) {
        Ok(batch) => Ok(Some(batch)),
        Err(_) => Err(WireError::Memory),
    }
}

impl<R: Source> Frames<R> {
    /// Returns the next batch, or `None` where the input ends between two frames. Returns `Read`
    /// only where the reader failed in this call. After a refusal every later call returns the same
    /// refusal and reads nothing.
    pub fn next(&mut self) -> Result<Option<Batch>, WireError>
        ensures batch { IfOk result (λ found. IfSome found
            (TakesFrame (R.remaining (frames_reader self.old))
            (R.remaining (frames_reader self.new)))) }
        ensures end { IfOk result (λ found. IfNone found
            (IsAtEnd (R.remaining (frames_reader self.old))
            × IsAtEnd (R.remaining (frames_reader self.new)))) }

        // If the reader reports its bytes, any other refusal than `Memory` and `Read` is the fault
        // of those left.
        ensures fault { refusal_of self.old ≡ None → IfErr result (λ e.
            e ≢ WireError.Memory → e ≢ WireError.Read
            → IfSome (R.remaining (frames_reader self.old)) (IsFaultOf e)) }
        ensures part { refusal_of self.old ≡ None → IfErr result
            (TakesPart (R.remaining (frames_reader self.old))
            (R.remaining (frames_reader self.new))) }
        ensures read { refusal_of self.old ≡ None → (IsErrOf result WireError.Read ↔
            (R.failures (frames_reader self.old) < R.failures (frames_reader self.new))) }

        ensures refused { IfSome (refusal_of self.old) (λ e. result ≡ Err e) }
        ensures rests { IsSome (refusal_of self.old)
            → frames_reader self.new ≡ frames_reader self.old }
        ensures err { IfErr result (λ e. refusal_of self.new ≡ Some e) }
        ensures ok { OnOk result (refusal_of self.new ≡ None) }
        ensures never_write { refusal_of self.old ≡ None → IfErr result (λ e. e ≢ WireError.Write) }
        ensures steady { OnOk result
            (R.failures (frames_reader self.new) ≡ R.failures (frames_reader self.old)) }
    {
        if let Some(refusal) = self.refusal {
            return Err(refusal);
        }
        match read_next(self.alloc, &mut self.reader) {
            Ok(found) => Ok(found),
            Err(refusal) => {
                self.refusal = Some(refusal);
                Err(refusal)
            }
        }
    }

    /// Returns the next batch without ordering its ranges, and otherwise as [`Frames::next`] does.
    pub fn next_unordered(&mut self) -> Result<Option<UnorderedBatch>, WireError>
        ensures batch { IfOk result (λ found. IfSome found
            (TakesFrame (R.remaining (frames_reader self.old))
            (R.remaining (frames_reader self.new)))) }
        ensures end { IfOk result (λ found. IfNone found
            (IsAtEnd (R.remaining (frames_reader self.old))
            × IsAtEnd (R.remaining (frames_reader self.new)))) }

        // If the reader reports its bytes, any other refusal than `Memory` and `Read` is the fault
        // of those left.
        ensures fault { refusal_of self.old ≡ None → IfErr result (λ e.
            e ≢ WireError.Memory → e ≢ WireError.Read
            → IfSome (R.remaining (frames_reader self.old)) (IsFaultOf e)) }
        ensures part { refusal_of self.old ≡ None → IfErr result
            (TakesPart (R.remaining (frames_reader self.old))
            (R.remaining (frames_reader self.new))) }
        ensures read { refusal_of self.old ≡ None → (IsErrOf result WireError.Read ↔
            (R.failures (frames_reader self.old) < R.failures (frames_reader self.new))) }

        ensures refused { IfSome (refusal_of self.old) (λ e. result ≡ Err e) }
        ensures rests { IsSome (refusal_of self.old)
            → frames_reader self.new ≡ frames_reader self.old }
        ensures err { IfErr result (λ e. refusal_of self.new ≡ Some e) }
        ensures ok { OnOk result (refusal_of self.new ≡ None) }
        ensures never_write { refusal_of self.old ≡ None → IfErr result (λ e. e ≢ WireError.Write) }
        ensures steady { OnOk result
            (R.failures (frames_reader self.new) ≡ R.failures (frames_reader self.old)) }
    {
        if let Some(refusal) = self.refusal {
            return Err(refusal);
        }
        match read_unordered(self.alloc, &mut self.reader) {
            Ok(found) => Ok(found),
            Err(fault) => {
                self.refusal = Some(fault);
                Err(fault)
            }
        }
    }
}
