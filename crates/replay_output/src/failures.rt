//! What failed, and its lines on standard error.

ghost use Rattle.std.specs.Prelude.{◌≡◌, ◌↔◌, ◌<◌, ◌≤◌, ◌++◌, codes, decimal, length, IsErr};
ghost use Rattle.std.specs.Prelude.{IsTrue, MatchOption, OnErr, OnOk, if◌then◌else◌};
ghost use Rattle.std.specs.Io.KnownBytes.{Appends, Keeps};
ghost use Rattle.replay_output.specs.Failures.{fault_name, stop_name, fault_line, loss_line};
ghost use Rattle.replay_output.specs.Failures.{lines_of_failure, proxy_lines, ending_line};
ghost use Rattle.replay_output.specs.Failures.{failure_lines, with_loss, IsClean, NothingFailed};

use itoa::Buffer;
use limits::Stop;
use wire::{Failed, Sink, WireError, write_all};

/// What failed of one proxy.
#[derive(Clone, Copy, Debug, PartialEq, Eq)]
pub struct ProxyFailure {
    /// The fault that ended its file early.
    pub fault: Option<WireError>,
    /// Whether an answer to it was lost for want of memory.
    pub lost: bool,
}

impl ProxyFailure {
    /// Returns whether nothing failed.
    pub fn is_clean(&self) -> bool
        ensures clean { IsTrue result ↔ IsClean self.now }
    {
        self.fault.is_none() && !self.lost
    }
}

/// How the run ended.
#[derive(Clone, Copy, Debug, PartialEq, Eq)]
pub enum Ending {
    /// Every answer was taken.
    Complete,
    /// An answer wasn't taken, although no stop was met.
    Incomplete,
    /// The resolver met a stop.
    Stopped(Stop),
}

impl Ending {
    /// Returns the ending of a run that was complete or not, and that met a stop or none. A stop
    /// decides.
    pub fn new(complete: bool, stop: Option<Stop>) -> Self
        ensures ending { MatchOption stop
            (result ≡ (if complete then Ending.Complete else Ending.Incomplete))
            (λ met. result ≡ Ending.Stopped met) }
    {
        match stop {
            Some(stop) => Ending::Stopped(stop),
            None if complete => Ending::Complete,
            None => Ending::Incomplete,
        }
    }
}

/// Returns whether nothing failed of any proxy, and the run is complete.
pub fn nothing_failed(failures: &[ProxyFailure], ending: Ending) -> bool
    ensures nothing { IsTrue result ↔ NothingFailed failures.now ending }
{
    failures.iter().all(|failure| failure.is_clean()) && matches!(ending, Ending::Complete)
}

/// Notes that an answer to a proxy was lost.
pub fn note_loss(failures: &mut [ProxyFailure], proxy: usize)
    requires known { proxy < length failures.old }
    ensures loss { failures.new ≡ with_loss proxy failures.old }
{
    failures[proxy].lost = true;
}

/// Prints a line for each failure: those of each proxy, whose number is its index, and last that of
/// the ending. A proxy's fault comes before its loss. Takes no memory.
///
/// After an error some of the text may be written.
pub fn print_failures<W: Sink>(
    error: &mut W,
    failures: &[ProxyFailure],
    ending: Ending,
) -> Result<(), Failed>
    ensures text { OnOk result (Appends (W.given error.old) (W.given error.new)
        (failure_lines failures.now ending)) }
    ensures nothing { NothingFailed failures.now ending
        → OnOk result (Keeps (W.given error.old) (W.given error.new)) }
    ensures failed { IsErr result ↔ (W.failures error.old < W.failures error.new) }
    ensures least_failures { W.failures error.old ≤ W.failures error.new }
{
    print_proxies(error, failures)?;
    print_ending(error, ending)
}

/// Writes `replay: proxy ` and the number of the proxy. Takes no memory.
pub fn begin_line<W: Sink>(error: &mut W, proxy: usize) -> Result<(), Failed>
    ensures text { OnOk result (Appends (W.given error.old) (W.given error.new)
        (codes "replay: proxy " ++ decimal proxy)) }
    ensures ok { OnOk result (W.failures error.new ≡ W.failures error.old) }
    ensures failed { OnErr result (W.failures error.old < W.failures error.new) }
{
    let mut buffer = Buffer::new();
    write_all(error, b"replay: proxy ")?;
    write_all(error, buffer.format(proxy).as_bytes())
}

fn print_proxies<W: Sink>(error: &mut W, failures: &[ProxyFailure]) -> Result<(), Failed>
    ensures text { OnOk result (Appends (W.given error.old) (W.given error.new)
        (proxy_lines failures.now)) }
    ensures ok { OnOk result (W.failures error.new ≡ W.failures error.old) }
    ensures failed { OnErr result (W.failures error.old < W.failures error.new) }
{
    for (proxy, failure) in failures.iter().enumerate() {
        print_failure(error, proxy, failure)?;
    }
    Ok(())
}

fn print_failure<W: Sink>(error: &mut W, proxy: usize, failure: &ProxyFailure) -> Result<(), Failed>
    ensures text { OnOk result (Appends (W.given error.old) (W.given error.new)
        (lines_of_failure (proxy, failure.now))) }
    ensures ok { OnOk result (W.failures error.new ≡ W.failures error.old) }
    ensures failed { OnErr result (W.failures error.old < W.failures error.new) }
{
    print_fault(error, proxy, failure.fault)?;
    print_loss(error, proxy, failure.lost)
}

fn print_fault<W: Sink>(error: &mut W, proxy: usize, fault: Option<WireError>) -> Result<(), Failed>
    ensures text { OnOk result (Appends (W.given error.old) (W.given error.new)
        (fault_line proxy fault)) }
    ensures ok { OnOk result (W.failures error.new ≡ W.failures error.old) }
    ensures failed { OnErr result (W.failures error.old < W.failures error.new) }
{
    let Some(fault) = fault else {
        return Ok(());
    };
    begin_line(error, proxy)?;
    write_all(error, b": wire ")?;
    write_all(error, fault_text(fault).as_bytes())?;
    write_all(error, b"\n")
}

fn print_loss<W: Sink>(error: &mut W, proxy: usize, lost: bool) -> Result<(), Failed>
    ensures text { OnOk result (Appends (W.given error.old) (W.given error.new)
        (loss_line proxy lost)) }
    ensures ok { OnOk result (W.failures error.new ≡ W.failures error.old) }
    ensures failed { OnErr result (W.failures error.old < W.failures error.new) }
{
    if !lost {
        return Ok(());
    }
    begin_line(error, proxy)?;
    write_all(error, b": memory\n")
}

fn print_ending<W: Sink>(error: &mut W, ending: Ending) -> Result<(), Failed>
    ensures text { OnOk result (Appends (W.given error.old) (W.given error.new)
        (ending_line ending)) }
    ensures ok { OnOk result (W.failures error.new ≡ W.failures error.old) }
    ensures failed { OnErr result (W.failures error.old < W.failures error.new) }
{
    match ending {
        Ending::Complete => Ok(()),
        Ending::Incomplete => write_all(error, b"replay: incomplete\n"),
        Ending::Stopped(stop) => print_stop(error, stop),
    }
}

fn print_stop<W: Sink>(error: &mut W, stop: Stop) -> Result<(), Failed>
    ensures text { OnOk result (Appends (W.given error.old) (W.given error.new)
        (ending_line (Ending.Stopped stop))) }
    ensures ok { OnOk result (W.failures error.new ≡ W.failures error.old) }
    ensures failed { OnErr result (W.failures error.old < W.failures error.new) }
{
    write_all(error, b"replay: stop ")?;
    write_all(error, stop_text(stop).as_bytes())?;
    write_all(error, b"\n")
}

/// Returns the number and the name of a fault, as its `Display` prints them. A contract doesn't see
/// what a derived `Display` prints.
pub fn fault_text(fault: WireError) -> &'static str
    ensures name { result.now ≡ fault_name fault }
{
    match fault {
        WireError::Short => "1 Short",
        WireError::Long => "2 Long",
        WireError::Kind => "3 Kind",
        WireError::Trailing => "4 Trailing",
        WireError::Version => "5 Version",
        WireError::Marks => "6 Marks",
        WireError::Count => "7 Count",
        WireError::KeyLength => "8 KeyLength",
        WireError::Inverted => "9 Inverted",
        WireError::Cut => "10 Cut",
        WireError::Memory => "11 Memory",
        WireError::Read => "12 Read",
        WireError::Form => "13 Form",
        WireError::Spelling => "14 Spelling",
        WireError::Write => "15 Write",
    }
}

// The number and the name of a stop, the same way.
fn stop_text(stop: Stop) -> &'static str
    ensures name { result.now ≡ stop_name stop }
{
    match stop {
        Stop::Memory => "1 Memory",
        Stop::GateFull => "2 GateFull",
        Stop::ArenaFull => "3 ArenaFull",
    }
}
