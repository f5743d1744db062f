//! The replies of a reader, frame after frame.

ghost use Rattle.std.specs.Prelude.{◌≡◌, ◌≢◌, ◌<◌, IfErr, IfNone, IfOk, IfSome, OnOk};
ghost use Rattle.std.specs.Io.KnownBytes.{IsAtEnd};
ghost use Rattle.wire.specs.NextFrame.{TakesPart};
ghost use Rattle.wire.specs.NextReply.{IsReplyFaultOf, TakesReply};

use crate::error::WireError;
use crate::fill::fill_frame;
use crate::reply::read_frame;
use crate::source::Source;
use keyspace::Reply;
use std::alloc::Global;

/// Returns the reply of the next frame, or `None` at the end of the input. Reads no byte beyond the
/// frame.
///
/// If the reader reports its bytes, any other refusal than `Memory` and `Read` is the fault of
/// those left. `Read` is returned only where the reader failed in this call.
pub fn read_reply<R: Source>(alloc: Global, reader: &mut R) -> Result<Option<Reply>, WireError>
    ensures reply { IfOk result (λ found. IfSome found
        (TakesReply (R.remaining reader.old) (R.remaining reader.new))) }
    ensures end { IfOk result (λ found. IfNone found
        (IsAtEnd (R.remaining reader.old) × IsAtEnd (R.remaining reader.new))) }
    ensures fault { IfErr result (λ e. e ≢ WireError.Memory → e ≢ WireError.Read
        → IfSome (R.remaining reader.old) (IsReplyFaultOf e)) }
    ensures part { IfErr result (TakesPart (R.remaining reader.old) (R.remaining reader.new)) }
    ensures ok { OnOk result (R.failures reader.new ≡ R.failures reader.old) }
    ensures read { IfErr result (λ e. e ≡ WireError.Read
        → R.failures reader.old < R.failures reader.new) }
    ensures others { IfErr result (λ e. e ≢ WireError.Read
        → R.failures reader.new ≡ R.failures reader.old) }
{
    let mut frame = Vec::new(alloc);
    fill_frame(reader, &mut frame)?;
    if frame.is_empty() {
        return Ok(None);
    }
    let (reply, _) = read_frame(alloc, &frame)?;
    Ok(Some(reply))
}
