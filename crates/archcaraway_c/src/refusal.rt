//! Why a call of the library is refused, and the number by which C sees it.

ghost use Rattle.std.specs.Prelude.{◌≡◌};
ghost use Rattle.archcaraway_c.specs.Status.{stop_status, wire_status, refusal_status};
ghost use Rattle.archcaraway_c.specs.Status.{bytes_needed};

use limits::Stop;
use wire::WireError;

/// Why a call of the library is refused.
#[derive(Clone, Copy, Debug, PartialEq, Eq)]
pub enum Refusal {
    /// The object has stopped for good.
    Stop(Stop),
    /// The frame isn't that of a batch, or memory was refused while a frame was read or written.
    Wire(WireError),
    /// The version of the batch isn't above that of the batch resolved last.
    Version,
    /// A number is outside its limits, or there is no such proxy.
    Argument,
    /// The buffer is too small: it needs this number of bytes.
    Buffer(usize),
    /// There are bytes after the frame.
    Behind,
}

/// The status of a call that was not refused.
pub const OK: i32 = 0;

impl Refusal {
    /// Returns the number by which C sees the refusal.
    pub fn status(&self) -> i32
        ensures status { result ≡ refusal_status self.now }
    {
        match self {
            Refusal::Stop(stop) => status_of_stop(*stop),
            Refusal::Wire(fault) => status_of_fault(*fault),
            Refusal::Version => 201,
            Refusal::Argument => 202,
            Refusal::Buffer(_) => 203,
            Refusal::Behind => 204,
        }
    }

    /// Returns how many bytes the buffer needs if it is too small, else 0.
    pub fn needed(&self) -> usize
        ensures needed { result ≡ bytes_needed self.now }
    {
        match self {
            Refusal::Buffer(needed) => *needed,
            _ => 0,
        }
    }
}

fn status_of_stop(stop: Stop) -> i32
    ensures status { result ≡ stop_status stop }
{
    stop as i32
}

fn status_of_fault(fault: WireError) -> i32
    ensures status { result ≡ wire_status fault }
{
    100 + fault as i32
}
