//! How a run has ended.

ghost use Rattle.std.specs.Prelude.{◌≡◌, [], None, false};

use replay_output::Status;
use replay_stream::Recorder;
use replay_tasks::{Ended, Met};
use std::alloc::Global;

/// How a run has ended.
#[derive(Drop)]
pub struct RunReport<W> {
    pub status: Status,
    /// What the run met.
    pub met: Met,
    /// The recorder of each proxy, if it has one, at its number. Empty if answers were not printed
    /// as they come, or if the run could not start.
    pub recorders: Vec<Option<Recorder<W>>>,
    /// The writer of the file for the output, if that was created.
    pub output: Option<W>,
    /// The writer of the file for the summary, if that was created.
    pub summary: Option<W>,
}

impl<W> RunReport<W> {
    /// Creates the report of a program whose run was not begun. Takes no memory.
    pub fn unstarted(alloc: Global, status: Status) -> Self
        ensures status { result.status ≡ status }
        ensures stop { result.met.stop ≡ None }
        ensures output_failed { result.met.output_failed ≡ false }
        ensures recorders { result.recorders.items ≡ [] }
        ensures output { result.output ≡ None }
        ensures summary { result.summary ≡ None }
    {
        RunReport::without_files(alloc, Ended::unstarted(status))
    }

    /// Creates the report of a run that has written no file. Takes no memory.
    pub fn without_files(alloc: Global, ended: Ended) -> Self
        ensures status { result.status ≡ ended.status }
        ensures met { result.met ≡ ended.met }
        ensures recorders { result.recorders.items ≡ [] }
        ensures output { result.output ≡ None }
        ensures summary { result.summary ≡ None }
    {
        RunReport {
            status: ended.status,
            met: ended.met,
            recorders: Vec::new(alloc),
            output: None,
            summary: None,
        }
    }
}
