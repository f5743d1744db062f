//! The codec of `wire` for C, for the tests of `include/archcaraway_frames.h`: that header is
//! compared with it byte for byte.
#![tactic(auto)]

ghost use Rattle.std.specs.Prelude.{◌≡◌, pos, take, IfOk};
ghost use Rattle.codec_c_tests.specs.Again.{IsBatchAgain, IsReplyAgain};

use std::alloc::Global;
use wire::{WireError, decode_batch, decode_reply, encode_batch_1, encode_reply};

/// Decodes the frame of a batch, of either version, and writes its frame in version 1 and the
/// length of that. Returns 0, or the number of the refusal.
#[unsafe(no_mangle)]
pub extern "C" fn codec_encode_batch_1(
    alloc: Global,
    frame: &[u8],
    out: &mut [u8],
    out_length: &mut usize,
) -> i32
    ensures again { result ≡ pos 0 → IsBatchAgain frame.now (take out_length.new out.new) }
{
    match batch_again(alloc, frame) {
        Ok(bytes) => write(&bytes, out, out_length),
        Err(fault) => fault as i32,
    }
}

/// Decodes the frame of a reply, and writes its frame again and the length of that. Returns 0, or
/// the number of the refusal.
#[unsafe(no_mangle)]
pub extern "C" fn codec_read_reply(
    alloc: Global,
    frame: &[u8],
    out: &mut [u8],
    out_length: &mut usize,
) -> i32
    ensures again { result ≡ pos 0 → IsReplyAgain frame.now (take out_length.new out.new) }
{
    match reply_again(alloc, frame) {
        Ok(bytes) => write(&bytes, out, out_length),
        Err(fault) => fault as i32,
    }
}

fn batch_again(alloc: Global, frame: &[u8]) -> Result<Vec<u8>, WireError>
    ensures again { IfOk result (λ bytes. IsBatchAgain frame.now bytes.items) }
{
    let (batch, _) = match decode_batch(alloc, frame) {
        Ok(found) => found,
        Err(fault) => return Err(fault),
    };
    match encode_batch_1(alloc, &batch) {
        Ok(bytes) => Ok(bytes),
        Err(fault) => Err(fault),
    }
}

fn reply_again(alloc: Global, frame: &[u8]) -> Result<Vec<u8>, WireError>
    ensures again { IfOk result (λ bytes. IsReplyAgain frame.now bytes.items) }
{
    let (reply, _) = match decode_reply(alloc, frame) {
        Ok(found) => found,
        Err(fault) => return Err(fault),
    };
    match encode_reply(alloc, &reply) {
        Ok(bytes) => Ok(bytes),
        Err(fault) => Err(fault),
    }
}

// Writes the bytes to the front of a buffer, or returns 2, as for a frame that is too long, if they
// don't fit.
fn write(bytes: &[u8], out: &mut [u8], out_length: &mut usize) -> i32
    ensures written { result ≡ pos 0 → take out_length.new out.new ≡ bytes.now }
{
    if out.len() < bytes.len() {
        return 2;
    }
    out[..bytes.len()].copy_from_slice(bytes);
    *out_length = bytes.len();
    0
}
