//! The tasks of the program `batches`, over any streams. They turn lines of JSON into frames of
//! batches or replies and back, show frames as a table, count what batches have, and clip them to
//! shards.
//!
//! [`convert`] does one of [`encode`], [`decode`] and [`show`]. The other tasks are
//! [`write_opening`]; [`count_frames`] with [`text_of_stats`] and [`json_of_stats`];
//! [`read_batches`] with [`split_points`]; [`read_points`] with [`clip_frames`]; [`tally_batches`]
//! and [`tally_replies`]. [`fail`] and [`fail_in`] print a [`Failure`].
#![tactic(auto)]

mod clipper;
mod converter;
mod counter;
mod decoder;
mod encoder;
mod failure;
mod form;
mod frame;
mod frame_tally;
pub mod laws;
mod opening_batch;
mod points;
mod printer;
mod progress;
mod put;
mod sample;
mod spread;
mod stats;
mod stats_json;
mod stats_text;
mod status;
mod table;
mod viewer;

pub use clipper::clip_frames;
pub use converter::convert;
pub use counter::count_frames;
pub use decoder::decode;
pub use encoder::encode;
pub use failure::{Failure, fail, fail_in};
pub use frame_tally::{tally_batches, tally_replies};
pub use opening_batch::write_opening;
pub use points::{lines_of_points, read_points};
pub use progress::{FileProgress, LONG_FILE};
pub use sample::{read_batches, split_points};
pub use spread::Spread;
pub use stats::{Stats, TxnCounts};
pub use stats_json::json_of_stats;
pub use stats_text::text_of_stats;
pub use status::JobStatus;
pub use viewer::show;
