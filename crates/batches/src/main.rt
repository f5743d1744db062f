//! The program `batches` turns lines of JSON into frames of batches or replies and back, and shows
//! frames as a table.
//!
//! The library `batches_program` does all of it. Here it is given the words, the files and the
//! streams of the process.
#![tactic(auto)]

use batches_program::run;
use batches_tasks::{Failure, JobStatus, fail};
use std::io::{BufWriter, IsTerminal};
use wire::StdSink;

fn main(rt: HostRuntime) -> JobStatus {
    let watched = rt.stderr().is_terminal();
    let mut error = StdSink::new(rt.stderr());
    match BufWriter::new(rt.alloc(), rt.stdout()) {
        Ok(out) => run(&rt, watched, &mut StdSink::new(out), &mut error),
        Err(_) => fail(&mut error, rt.alloc(), &Failure::Memory),
    }
}
