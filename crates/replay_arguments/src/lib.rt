//! The command line of the program `replay`, and the files that it names.
//!
//! [`read_words`] reads the arguments. It returns a [`CommandLine`], which has one [`Task`], or a
//! [`ArgumentsRefusal`] that says how the program ends. [`open_files`] opens the files by their
//! names, through any [`Files`].
//!
//! What a command line asks for is defined in `specs/Asks.antt`, and why arguments are of no use in
//! `specs/Arguments.antt`. `specs/Opening.antt` defines what is opened.
#![tactic(auto)]

mod arguments;
mod opened_files;

pub use arguments::{
    ArgumentsRefusal, CommandLine, MAX_RESOLVERS, MAX_TOP, Sharding, SummaryFile, Task, read_words,
};
pub use opened_files::{
    Extent, FileError, Files, OpeningError, STANDARD_INPUT, WrittenFile, begin_replies,
    create_files, fail_to_create, fail_to_create_file, fail_to_open, first_irregular, open_files,
};
