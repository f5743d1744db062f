//! Batches and replies as frames of bytes, and back.
//!
//! A reader must believe the definitions of `specs/`. Read them in this order: `Fields` (the
//! content of a frame), `Spelling` (how each value is spelled, and its limits), `Reading` (the
//! fault that comes first). Those of a stream of frames are `Source`, `NextFrame`, `Frames`,
//! `Batches`, `Sink` and `Upgrade`. `Rows` and `Lying` define the state of a frame while it is
//! read: the tables of a batch, whose keys are in the frame. The form has two versions, which
//! differ in the kind of a batch and in the text of a range.
//!
//! No key is copied: a batch keeps the frame that it was read from. A range may be spelled by a
//! single key. Then the byte after that key is set to zero once the complete frame is read, so that
//! the end of the range is in the frame too.
//!
//! The layers above use these calls:
//!
//! - [`decode_batch`] and [`decode_reply`] decode exactly the frames that spell a value, and name
//!   the first fault of any other. [`encode_batch`], [`encode_batch_1`] and [`encode_reply`] encode
//!   values.
//! - [`Frames`] iterates over the batches of a reader, however it divides its bytes, and is a
//!   stream of [`Batches`]. [`read_reply`] reads the next reply of a reader.
//! - [`upgrade`] writes batches of either version anew in version 2.
//! - [`write_all`] gives a [`Sink`] a complete slice.
#![tactic(auto)]

mod batch;
mod batches;
mod encode;
mod error;
mod field;
mod fill;
mod frames;
pub mod laws;
mod length;
mod put;
mod range;
mod reply;
mod reply_frames;
mod seal;
mod sink;
mod source;
mod tables;
mod txn;
mod version;
mod version_upgrade;

pub use batch::decode_batch;
pub use batches::{Batches, frames_each};
pub use encode::{encode_batch, encode_batch_1, encode_reply};
pub use error::WireError;
pub use field::MAX_BODY_LENGTH;
pub use fill::{fill_frame, frame_length};
pub use frames::{Frames, read_frames};
pub use reply::decode_reply;
pub use reply_frames::read_reply;
pub use sink::{Sink, StdSink, write_all, write_and_flush};
pub use source::{Failed, Source, StdSource};
pub use version::WireVersion;
pub use version_upgrade::upgrade;
