//! The readers that frames come from.

ghost use Rattle.std.specs.Prelude.{◌≡◌, ◌+◌, ◌<◌, ◌≤◌, ℕ, List, Option, length, take, IfOk};
ghost use Rattle.std.specs.Prelude.{IfSome, OnOk, OnErr};
ghost use Rattle.std.specs.Io.KnownBytes.{Consumes, IsAtEnd, Keeps};
ghost use Rattle.wire.specs.Source.{source_reader, source_failures, source_remaining};

use std::io::{ErrorKind, Read};

/// A reader or a writer failed.
#[derive(Clone, Copy, Debug, PartialEq, Eq)]
pub struct Failed;

/// A reader whose failures are counted.
pub trait Source {
    // The bytes that reads will give from here on, if the reader reports them.
    ghost remaining: { Self → Option (List ℕ) };

    // How often it has failed.
    ghost failures: { Self → ℕ };

    /// Reads into the front of the buffer and returns how many bytes it wrote. Returns 0 for a
    /// non-empty buffer only at the end of the input. A failed read takes no byte.
    fn read(&mut self, buffer: &mut [u8]) -> Result<usize, Failed>
        ensures bound { IfOk result (λ n. n ≤ length buffer.new) }
        ensures bytes { IfOk result (λ n.
            Consumes (remaining self.old) (remaining self.new) (take n buffer.new)) }
        ensures end { IfOk result (λ n. n ≡ 0 → 0 < length buffer.new
            → IsAtEnd (remaining self.new)) }
        ensures kept { OnErr result (IfSome (remaining self.new) (λ _.
            Keeps (remaining self.old) (remaining self.new))) }
        ensures ok { OnOk result (failures self.new ≡ failures self.old) }
        ensures failed { OnErr result (failures self.new ≡ failures self.old + 1) };
}

/// The most times that one read or write is tried again after an interruption.
pub const MAX_RETRIES: u32 = 1_000;

/// A [`Source`] over any reader of `std`. After an interruption it tries again, at most 1,000 times
/// in one call. Its count of failures stops at `u64::MAX`: from then on it reports no bytes and
/// gives none.
#[derive(Debug, Drop)]
pub struct StdSource<R> {
    reader: R,
    failures: u64,
}

impl<R> StdSource<R> {
    /// Creates a source over the reader, which hasn't failed yet.
    pub fn new(reader: R) -> Self
        ensures reader { source_reader result ≡ reader }
        ensures failures { source_failures result ≡ 0 }
    {
        StdSource {
            reader,
            failures: 0,
        }
    }
}

#[tactic(auto, using(crate::proofs::callers::Known::keeps_same, crate::proofs::callers::Known::keeps_then, crate::proofs::callers::Known::reported_consumes))]
impl<R: Read> Source for StdSource<R> {
    ghost remaining = { source_remaining R.remaining };

    ghost failures = { source_failures };

    fn read(&mut self, buffer: &mut [u8]) -> Result<usize, Failed> {
        if self.failures == u64::MAX {
            return Ok(0);
        }
        for _ in 0..1 + MAX_RETRIES {
            match self.reader.read(buffer) {
                Ok(count) => return Ok(count),
                Err(error) => {
                    if error.kind() != ErrorKind::Interrupted {
                        break;
                    }
                }
            }
        }
        self.failures += 1;
        Err(Failed)
    }
}
