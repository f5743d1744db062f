//! Encodes values as frames. The length of a frame is known before it is written, so its memory is
//! taken at once.

ghost use Rattle.std.specs.Prelude.{◌≡◌, ◌⊎◌, ◌↔◌, ◌++◌, ◌<◌, ◌≤◌, length, OnOk, IfOk, IfErr};
ghost use Rattle.std.specs.Prelude.{IsErrOf};
ghost use Rattle.byteorder.specs.Endian.{big_bytes};
ghost use Rattle.wire.specs.Fields.{batch_fields, reply_fields};
ghost use Rattle.wire.specs.Spelling.{batch_body, reply_body, BatchHolds, ReplyHolds, SpellsBatch};
ghost use Rattle.wire.specs.Spelling.{SpellsReply};

use crate::error::WireError;
use crate::field::MAX_BODY_LENGTH;
use crate::length::{batch_length, reply_length};
use crate::put::{put_entries, put_i64, put_txns, put_u16, put_u32};
use crate::version::{WireVersion, kind_of};
use keyspace::{Batch, Reply};
use std::alloc::{AllocError, Global};

// Begins a frame with the length of its body, and takes memory for the body after it.
fn begin_frame(alloc: Global, length: usize) -> Result<Vec<u8>, WireError>
    ensures text { IfOk result (λ out. out.items ≡ big_bytes 4 length) }
    ensures short { OnOk result (length ≤ MAX_BODY_LENGTH) }
    ensures long { IsErrOf result WireError.Long ↔ (MAX_BODY_LENGTH < length) }
    ensures err { IfErr result (λ e. (e ≡ WireError.Long) ⊎ (e ≡ WireError.Memory)) }
{
    if length > MAX_BODY_LENGTH {
        return Err(WireError::Long);
    }
    let mut out = Vec::with_capacity(alloc, 4 + length)?;
    put_u32(&mut out, length as u32)?;
    Ok(out)
}

#[tactic(auto, unfolding(crate::specs::Spelling::batch_body))]
fn put_batch(out: &mut Vec<u8>, version: WireVersion, batch: &Batch) -> Result<(), AllocError>
    ensures text { OnOk result
        (out.new.items ≡ out.old.items ++ batch_body version (batch_fields batch.now)) }
    ensures holds { OnOk result (BatchHolds (batch_fields batch.now)) }
{
    out.push(kind_of(version))?;
    put_i64(out, batch.previous)?;
    put_i64(out, batch.version)?;
    put_i64(out, batch.received)?;
    put_u16(out, batch.txns.len() as u16)?;
    put_txns(out, version, &batch.txns)?;
    Ok(())
}

// Encodes a batch as a frame of this wire version.
fn encode_in(alloc: Global, version: WireVersion, batch: &Batch) -> Result<Vec<u8>, WireError>
    ensures spelled { IfOk result (λ bytes. SpellsBatch version bytes.items batch.now) }
    ensures long { IsErrOf result WireError.Long ↔
        (MAX_BODY_LENGTH < length (batch_body version (batch_fields batch.now))) }
    ensures err { IfErr result (λ e. (e ≡ WireError.Long) ⊎ (e ≡ WireError.Memory)) }
{
    let mut out = begin_frame(alloc, batch_length(version, batch))?;
    put_batch(&mut out, version, batch)?;
    Ok(out)
}

/// Encodes a batch as a frame of wire version 2. Returns `Long` exactly where its body exceeds
/// [`MAX_BODY_LENGTH`].
pub fn encode_batch(alloc: Global, batch: &Batch) -> Result<Vec<u8>, WireError>
    ensures spelled { IfOk result (λ bytes. SpellsBatch WireVersion.Two bytes.items batch.now) }
    ensures long { IsErrOf result WireError.Long ↔
        (MAX_BODY_LENGTH < length (batch_body WireVersion.Two (batch_fields batch.now))) }
    ensures err { IfErr result (λ e. (e ≡ WireError.Long) ⊎ (e ≡ WireError.Memory)) }
{
    encode_in(alloc, WireVersion::Two, batch)
}

/// Encodes a batch as a frame of wire version 1. Returns `Long` exactly where its body exceeds
/// [`MAX_BODY_LENGTH`].
pub fn encode_batch_1(alloc: Global, batch: &Batch) -> Result<Vec<u8>, WireError>
    ensures spelled { IfOk result (λ bytes. SpellsBatch WireVersion.One bytes.items batch.now) }
    ensures long { IsErrOf result WireError.Long ↔
        (MAX_BODY_LENGTH < length (batch_body WireVersion.One (batch_fields batch.now))) }
    ensures err { IfErr result (λ e. (e ≡ WireError.Long) ⊎ (e ≡ WireError.Memory)) }
{
    encode_in(alloc, WireVersion::One, batch)
}

#[tactic(auto, unfolding(crate::specs::Spelling::reply_body))]
fn put_reply(out: &mut Vec<u8>, reply: &Reply) -> Result<(), AllocError>
    ensures text { OnOk result (out.new.items
        ≡ out.old.items ++ reply_body (reply_fields reply.now)) }
    ensures holds { OnOk result (ReplyHolds (reply_fields reply.now)) }
{
    out.push(2)?;
    put_i64(out, reply.version)?;
    put_u16(out, reply.entries.len() as u16)?;
    put_entries(out, reply.entries.as_slice())?;
    Ok(())
}

/// Encodes a reply as a frame. Returns `Long` exactly where its body exceeds [`MAX_BODY_LENGTH`].
/// The right reply to a batch that has a frame fits (`laws::reply_fits`).
pub fn encode_reply(alloc: Global, reply: &Reply) -> Result<Vec<u8>, WireError>
    ensures spelled { IfOk result (λ bytes. SpellsReply bytes.items reply.now) }
    ensures long { IsErrOf result WireError.Long ↔
        (MAX_BODY_LENGTH < length (reply_body (reply_fields reply.now))) }
    ensures err { IfErr result (λ e. (e ≡ WireError.Long) ⊎ (e ≡ WireError.Memory)) }
{
    let mut out = begin_frame(alloc, reply_length(reply))?;
    put_reply(&mut out, reply)?;
    Ok(out)
}
