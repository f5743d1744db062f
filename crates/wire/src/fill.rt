//! Reads the bytes of one frame, and none beyond it.

ghost use Rattle.std.specs.Prelude.{◌≡◌, ◌≢◌, ◌<◌, ◌≤◌, ◌+◌, ◌-◌, length, take, vec_len, not, IfOk};
ghost use Rattle.std.specs.Prelude.{IfErr, IsTrue, OnErr, OnOk};
ghost use Rattle.std.specs.Io.KnownBytes.{Consumes, IsAtEnd};
ghost use Rattle.keys.specs.Key.{IsBytes};
ghost use Rattle.wire.specs.Filling.{MovesInto, TakesFewer};
ghost use Rattle.wire.specs.FrameLength.{frame_length};
ghost use Rattle.wire.specs.NextFrame.{TakesPart};

use crate::error::WireError;
use crate::field::MAX_BODY_LENGTH;
use crate::source::{Failed, Source};
use byteorder::{BigEndian, ByteOrder};

// The most bytes of a chunk, as long as the buffer holds fewer. So a length that no body follows
// takes little memory.
const CHUNK_LENGTH: usize = 262_144;

// Reads into the slice until it is full or the input ends. Returns how many bytes it read.
fn read_into<R: Source>(reader: &mut R, room: &mut [u8]) -> Result<usize, Failed>
    ensures within { IfOk result (λ n. n ≤ length room.new) }
    ensures bytes { IfOk result (λ n.
        Consumes (R.remaining reader.old) (R.remaining reader.new) (take n room.new)) }
    ensures end { IfOk result (λ n. n < length room.new → IsAtEnd (R.remaining reader.new)) }
    ensures cut { OnErr result
        (TakesFewer (length room.new) (R.remaining reader.old) (R.remaining reader.new)) }
    ensures ok { OnOk result (R.failures reader.new ≡ R.failures reader.old) }
    ensures failed { OnErr result (R.failures reader.old < R.failures reader.new) }
{
    let mut count = 0;
    while count < room.len() {
        let more = reader.read(&mut room[count..])?;
        if more == 0 {
            return Ok(count);
        }
        count += more;
    }
    Ok(count)
}

// Appends a chunk of at most `most` bytes to the buffer, whose memory is filled once per chunk,
// however few bytes each read gives. Returns whether there was a complete chunk before the end of
// the input.
fn read_chunk<R: Source>(
    reader: &mut R,
    buffer: &mut Vec<u8>,
    most: usize,
) -> Result<bool, WireError>
    requires some { 0 < most }
    ensures bytes { OnOk result
        (MovesInto (R.remaining reader.old) (R.remaining reader.new) buffer.old.items
        buffer.new.items) }
    ensures within { OnOk result (vec_len buffer.new ≤ vec_len buffer.old + most) }
    ensures more { IfOk result (λ more. IsTrue more → vec_len buffer.old < vec_len buffer.new) }
    ensures end { IfOk result (λ more. IsTrue (not more) → IsAtEnd (R.remaining reader.new)) }
    ensures cut { OnErr result (TakesFewer most (R.remaining reader.old) (R.remaining reader.new)) }
    ensures ok { OnOk result (R.failures reader.new ≡ R.failures reader.old) }
    ensures read { IfErr result (λ e. e ≡ WireError.Read
        → R.failures reader.old < R.failures reader.new) }
    ensures memory { IfErr result (λ e. e ≢ WireError.Read
        → (e ≡ WireError.Memory) × (R.failures reader.new ≡ R.failures reader.old)) }
{
    let held = buffer.len();
    let wanted = most.min(CHUNK_LENGTH.max(held));
    // Room for one byte more, the end of a single key that stands last, and for none beyond it,
    // since a batch keeps the buffer.
    buffer.reserve_exact(wanted + 1)?;
    buffer.resize(held + wanted, 0)?;
    let count = read_into(reader, &mut buffer[held..])?;
    buffer.truncate(held + count);
    Ok(count == wanted)
}

// Reads until the buffer holds `target` bytes or the input ends.
fn fill<R: Source>(reader: &mut R, buffer: &mut Vec<u8>, target: usize) -> Result<(), WireError>
    requires room { vec_len buffer.old ≤ target }
    ensures bytes { OnOk result
        (MovesInto (R.remaining reader.old) (R.remaining reader.new) buffer.old.items
        buffer.new.items) }
    ensures within { OnOk result (vec_len buffer.new ≤ target) }
    ensures end { OnOk result (vec_len buffer.new < target → IsAtEnd (R.remaining reader.new)) }
    ensures cut { OnErr result
        (TakesFewer (target - vec_len buffer.old) (R.remaining reader.old)
        (R.remaining reader.new)) }
    ensures ok { OnOk result (R.failures reader.new ≡ R.failures reader.old) }
    ensures read { IfErr result (λ e. e ≡ WireError.Read
        → R.failures reader.old < R.failures reader.new) }
    ensures memory { IfErr result (λ e. e ≢ WireError.Read
        → (e ≡ WireError.Memory) × (R.failures reader.new ≡ R.failures reader.old)) }
{
    while buffer.len() < target {
        if !read_chunk(reader, buffer, target - buffer.len())? {
            return Ok(());
        }
    }
    Ok(())
}

/// Returns how many bytes of the first frame determine its content: all of them, or only the four
/// of its length if no body may be that long.
#[tactic(auto, unfolding(crate::specs::FrameLength::frame_length))]
pub fn frame_length(front: &[u8]) -> usize
    ensures exact { result ≡ frame_length front.now }
{
    if front.len() < 4 {
        return 4;
    }
    let length = BigEndian::read_u32(front) as usize;
    if length > MAX_BODY_LENGTH {
        return 4;
    }
    4 + length
}

/// Reads the bytes of the next frame into the buffer: as many as determine its content, or all that
/// are left. The buffer is empty at the end of the input. Memory is filled once per chunk of 256
/// KiB, however few bytes each read gives.
pub fn fill_frame<R: Source>(reader: &mut R, buffer: &mut Vec<u8>) -> Result<(), WireError>
    ensures taken { OnOk result
        (Consumes (R.remaining reader.old) (R.remaining reader.new) buffer.new.items) }
    ensures bytes { OnOk result (IsBytes buffer.new.items) }
    ensures within { OnOk result (vec_len buffer.new ≤ frame_length buffer.new.items) }
    ensures end { OnOk result
        (vec_len buffer.new < frame_length buffer.new.items → IsAtEnd (R.remaining reader.new)) }
    ensures part { IfErr result (TakesPart (R.remaining reader.old) (R.remaining reader.new)) }
    ensures ok { OnOk result (R.failures reader.new ≡ R.failures reader.old) }
    ensures read { IfErr result (λ e. e ≡ WireError.Read
        → R.failures reader.old < R.failures reader.new) }
    ensures memory { IfErr result (λ e. e ≢ WireError.Read
        → (e ≡ WireError.Memory) × (R.failures reader.new ≡ R.failures reader.old)) }
{
    buffer.clear();
    fill(reader, buffer, 4)?;
    let length = frame_length(buffer);
    if length > 4 {
        fill(reader, buffer, length)?;
    }
    Ok(())
}
