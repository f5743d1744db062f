//! Runs one worker per file, each in its own thread, and turns the resolver between them.
//!
//! [`run`] does so over any readers, and returns a [`RunOutcome`]: what the workers returned, and
//! how full the resolver was. [`run_observed`] also shows each batch that is processed to an
//! observer, and [`run_over`] takes any streams of [`Batches`](wire::Batches). [`AskingFrames`] are
//! the batches of a file, whose transactions all ask for their reports. [`work`] is what one worker
//! does: it reads the batches of its file, sends them and takes the answers; [`work_over`] takes a
//! stream. [`open_resolver`] opens the resolver. A [`Gatekeeper`] says when workers may send, and a
//! [`ShareKeeper`] whose batch goes first if all have used up their share. The program's keeper
//! of shares is a [`WaitingRoom`].
//!
//! In reading order: `workers_run`, `opening`, `threads`, `worker`, `reporting_batches`, `inbox`,
//! `ends`, `shares`, `gatekeeper`, `watch`, `outcome`, `rest`. What became of the files is `IsRun`,
//! in `specs/Run.antt`, and of streams `IsRunOver`. How full the resolver was is `IsOccupancyOf`,
//! in `specs/Occupied.antt`. What one worker has done is `HasWorked`, in `specs/Worker.antt`. Which
//! batches are resolved for those of a file is `resolved_for`, in `specs/Reporting.antt`.
#![tactic(auto)]

mod ends;
mod gatekeeper;
mod inbox;
mod opening;
mod outcome;
mod reporting_batches;
mod rest;
mod shares;
mod threads;
mod watch;
mod worker;
mod workers_run;

pub use ends::MostUnanswered;
pub use gatekeeper::{AlwaysOpen, Gatekeeper, ShareKeeper, Unshared};
pub use opening::open_resolver;
pub use outcome::RunOutcome;
pub use reporting_batches::{AskingFrames, read_asking};
pub use rest::pause;
pub use shares::{
    AtomicPlace, Place, PlaceCell, ReportedState, Stand, WaitingRoom, is_below_share, next_admitted,
};
pub use watch::Watch;
pub use worker::{Assignment, FileEnd, Finished, Leftover, work, work_over};
pub use workers_run::{admit, run, run_observed, run_over};
