//! The program `workload` writes a file of batch frames to measure `replay` with: `workload SHAPE
//! BATCHES TRANSACTIONS`.
//!
//! The library `workload_program` does all of it, over any words and streams. Here it is given
//! those of the process.
#![tactic(auto)]

use std::io::BufWriter;
use std::process::ExitCode;
use wire::StdSink;
use workload_program::{Fault, fail, run_in};

fn main(rt: HostRuntime) -> ExitCode {
    let mut error = StdSink::new(rt.stderr());
    let code = match BufWriter::new(rt.alloc(), rt.stdout()) {
        Ok(out) => run_in(&rt, &mut StdSink::new(out), &mut error),
        Err(_refused) => fail(&mut error, Fault::Memory),
    };
    ExitCode::from(code)
}
