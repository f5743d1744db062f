//! The proxies whose records could not be written, and their lines on standard error.

ghost use Rattle.std.specs.Prelude.{◌≡◌, ◌↔◌, ◌<◌, false, IsTrue, OnErr, OnOk};
ghost use Rattle.std.specs.List.{All};
ghost use Rattle.std.specs.Io.KnownBytes.{Appends};
ghost use Rattle.replay_output.specs.Unwritten.{unwritten_line, unwritten_lines};

use itoa::Buffer;
use wire::{Failed, Sink, write_all};

/// Prints a line for each proxy whose records could not be written. A proxy's number is its index.
/// Takes no memory.
///
/// After an error some of the text may be written.
pub fn print_unwritten<W: Sink>(error: &mut W, unwritten: &[bool]) -> Result<(), Failed>
    ensures text { OnOk result (Appends (W.given error.old) (W.given error.new)
        (unwritten_lines unwritten.now)) }
    ensures ok { OnOk result (W.failures error.new ≡ W.failures error.old) }
    ensures failed { OnErr result (W.failures error.old < W.failures error.new) }
{
    for (proxy, failed) in unwritten.iter().enumerate() {
        print_proxy(error, proxy, *failed)?;
    }
    Ok(())
}

/// Returns whether all records were written.
pub fn all_written(unwritten: &[bool]) -> bool
    ensures all { IsTrue result ↔ All (λ failed. failed ≡ false) unwritten.now }
{
    unwritten.iter().all(|failed| !*failed)
}

fn print_proxy<W: Sink>(error: &mut W, proxy: usize, failed: bool) -> Result<(), Failed>
    ensures text { OnOk result (Appends (W.given error.old) (W.given error.new)
        (unwritten_line (proxy, failed))) }
    ensures ok { OnOk result (W.failures error.new ≡ W.failures error.old) }
    ensures failed { OnErr result (W.failures error.old < W.failures error.new) }
{
    if !failed {
        return Ok(());
    }
    let mut buffer = Buffer::new();
    write_all(error, b"replay: replies ")?;
    write_all(error, buffer.format(proxy).as_bytes())?;
    write_all(error, b": wire 15 Write\n")
}
