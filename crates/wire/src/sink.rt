//! The writers that text and frames go to.

ghost use Rattle.std.specs.Prelude.{◌≡◌, ◌+◌, ◌<◌, ◌≤◌, ℕ, List, Option, length, take, IfOk};
ghost use Rattle.std.specs.Prelude.{IfSome, OnOk, OnErr};
ghost use Rattle.std.specs.Io.KnownBytes.{Appends, Keeps};
ghost use Rattle.wire.specs.Sink.{sink_writer, sink_failures, sink_given};

use crate::source::{Failed, MAX_RETRIES};
use std::io::{ErrorKind, Write};

/// A writer whose failures are counted.
pub trait Sink {
    // The bytes that it was given, if the writer reports them.
    ghost given: { Self → Option (List ℕ) };

    // How often it has failed.
    ghost failures: { Self → ℕ };

    /// Writes a prefix of the bytes and returns how many it took. Takes none of a non-empty slice
    /// only if it fails.
    fn write(&mut self, bytes: &[u8]) -> Result<usize, Failed>
        ensures bound { IfOk result (λ n. n ≤ length bytes.now) }
        ensures some { IfOk result (λ n. 0 < length bytes.now → 0 < n) }
        ensures bytes { IfOk result (λ n. Appends (given self.old) (given self.new)
            (take n bytes.now)) }
        ensures kept { OnErr result (IfSome (given self.new)
            (λ _. Keeps (given self.old) (given self.new))) }
        ensures ok { OnOk result (failures self.new ≡ failures self.old) }
        ensures failed { OnErr result (failures self.new ≡ failures self.old + 1) };

    /// Passes on what the writer holds back. The bytes given to it stay.
    fn flush(&mut self) -> Result<(), Failed>
        ensures given { OnOk result (Keeps (given self.old) (given self.new)) }
        ensures kept { OnErr result (IfSome (given self.new)
            (λ _. Keeps (given self.old) (given self.new))) }
        ensures ok { OnOk result (failures self.new ≡ failures self.old) }
        ensures failed { OnErr result (failures self.new ≡ failures self.old + 1) };
}

/// Writes all of the bytes, in as many calls as it takes. After a failure the sink was given a
/// prefix of them.
pub fn write_all<W: Sink>(writer: &mut W, bytes: &[u8]) -> Result<(), Failed>
    ensures entire { OnOk result (Appends (W.given writer.old) (W.given writer.new) bytes.now) }
    ensures prefix { OnErr result (IfSome (W.given writer.new) (λ _.
        (n : ℕ) × Appends (W.given writer.old) (W.given writer.new) (take n bytes.now))) }
    ensures ok { OnOk result (W.failures writer.new ≡ W.failures writer.old) }
    ensures failed { OnErr result (W.failures writer.old < W.failures writer.new) }
{
    let mut written = 0;
    while written < bytes.len() {
        written += writer.write(&bytes[written..])?;
    }
    Ok(())
}

/// Writes all of the bytes, as [`write_all`] does, and flushes the sink.
pub fn write_and_flush<W: Sink>(writer: &mut W, bytes: &[u8]) -> Result<(), Failed>
    ensures entire { OnOk result (Appends (W.given writer.old) (W.given writer.new) bytes.now) }
    ensures prefix { OnErr result (IfSome (W.given writer.new) (λ _.
        (n : ℕ) × Appends (W.given writer.old) (W.given writer.new) (take n bytes.now))) }
    ensures ok { OnOk result (W.failures writer.new ≡ W.failures writer.old) }
    ensures failed { OnErr result (W.failures writer.old < W.failures writer.new) }
{
    write_all(writer, bytes)?;
    writer.flush()
}

/// A [`Sink`] over any writer of `std`. After an interruption it tries again, at most 1,000 times
/// in one call. A writer that takes none of a non-empty slice has failed. Its count of failures
/// stops at `u64::MAX`: from then on it reports no bytes and passes none on.
#[derive(Debug, Drop)]
pub struct StdSink<W> {
    writer: W,
    failures: u64,
}

impl<W> StdSink<W> {
    /// Creates a sink over the writer, which hasn't failed yet.
    pub fn new(writer: W) -> Self
        ensures writer { sink_writer result ≡ writer }
        ensures failures { sink_failures result ≡ 0 }
    {
        StdSink {
            writer,
            failures: 0,
        }
    }

    /// Returns the writer.
    pub fn into_inner(self) -> W
        ensures writer { result ≡ sink_writer self }
    {
        self.writer
    }
}

#[tactic(auto, using(crate::proofs::callers::Known::keeps_same, crate::proofs::callers::Known::keeps_then, crate::proofs::callers::Given::reported_appends))]
impl<W: Write> Sink for StdSink<W> {
    ghost given = { sink_given W.contents };

    ghost failures = { sink_failures };

    fn write(&mut self, bytes: &[u8]) -> Result<usize, Failed> {
        if self.failures == u64::MAX {
            return Ok(bytes.len());
        }
        for _ in 0..1 + MAX_RETRIES {
            match self.writer.write(bytes) {
                Ok(count) => {
                    if count > 0 || bytes.is_empty() {
                        return Ok(count);
                    }
                    break;
                }
                Err(error) => {
                    if error.kind() != ErrorKind::Interrupted {
                        break;
                    }
                }
            }
        }
        self.failures += 1;
        Err(Failed)
    }

    fn flush(&mut self) -> Result<(), Failed> {
        if self.failures == u64::MAX {
            return Ok(());
        }
        for _ in 0..1 + MAX_RETRIES {
            match self.writer.flush() {
                Ok(()) => return Ok(()),
                Err(error) => {
                    if error.kind() != ErrorKind::Interrupted {
                        break;
                    }
                }
            }
        }
        self.failures += 1;
        Err(Failed)
    }
}
