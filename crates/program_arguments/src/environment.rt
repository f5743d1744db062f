//! The arguments in the environment of a process.

use std::alloc::Global;
use std::rt::Env;
use std::{env, io};

/// Why the arguments can't be read.
#[derive(Clone, Copy, Debug)]
pub enum ArgumentsError {
    /// An argument isn't UTF-8. The toolchain opens files by text names alone.
    NotText,
    /// Memory was refused.
    Memory,
}

/// Returns the arguments of the process, starting with the program's name.
pub fn read_arguments(
    alloc: Global,
    environment: &impl Env,
) -> Result<Vec<String>, ArgumentsError> {
    let words = env::args(&(environment, alloc)).and_then(|words| Ok(words.collect(alloc)?));
    words.map_err(|cause| match cause.kind() {
        io::ErrorKind::OutOfMemory => ArgumentsError::Memory,
        _ => ArgumentsError::NotText,
    })
}
