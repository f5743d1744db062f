//! Batches and replies as lines of JSON, and back.
//!
//! `specs/` holds what has to be believed, to be read in this order: `KeyForm` (keys as text),
//! `Values`, `Names`, `Ranges`, `Batches` and `Replies` (what a JSON value says, if it says a batch
//! or a reply), and `Written` (which line is written).
//!
//! The layers above use [`read_batch`] and [`read_reply`], which read a line or say which member is
//! wrong and why ([`LineRefusal`]); and [`write_batch`] and [`write_reply`], whose lines read back
//! as what was written ([`laws`]). [`put_key_form`] and [`read_key`] do the same with keys alone.
//! [`put_quoted_key`] adds quotes; [`put_key`] writes the form as a string of JSON.
#![tactic(auto)]

mod batch;
mod batch_writer;
mod cause;
mod document;
mod items;
mod key_form;
pub mod laws;
mod member;
mod members;
mod place;
mod range;
mod range_writer;
mod refusal;
mod reply;
mod reply_writer;
mod scalar;
mod txn;

pub use batch::read_batch;
pub use batch_writer::write_batch;
pub use cause::Cause;
pub use json::Scratch;
pub use key_form::{put_key_form, put_quoted_key, read_key, read_key_line};
pub use member::Member;
pub use place::LinePlace;
pub use range_writer::put_key;
pub use refusal::LineRefusal;
pub use reply::read_reply;
pub use reply_writer::write_reply;
