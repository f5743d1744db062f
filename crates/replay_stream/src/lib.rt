//! A run whose answers are printed as they come.
//!
//! Each proxy has a sender, a thread that reads its file and sends its batches. If its answers are
//! to be recorded, it has a recorder, another thread that writes their records. The thread that
//! turns the resolver takes all answers, prints them and passes them on.
//!
//! In reading order: `progress`, `sender`, `recorder`, `outlet`, `threads`, `streamed`, `proxies`,
//! `stream_run`. What a sender has done is `HasSent`, in `specs/Sender.antt`, and what a recorder
//! has done is `HasRecorded`, in `specs/Recorder.antt`. What became of all files is `IsStreamed`,
//! in `specs/Streaming.antt`.
#![tactic(auto)]

mod outlet;
mod progress;
mod proxies;
mod recorder;
mod sender;
mod stream_run;
mod streamed;
mod threads;

pub use recorder::Recorder;
pub use stream_run::run_stream;
pub use streamed::Streamed;
