//! What a run of the program `replay` prints, and how it ends.
//!
//! [`Options`] says how a run is set up, its [`Style`] how answers are printed: in which [`Form`],
//! and which of them, by a [`LineFilter`]. Its [`Reports`] says which transactions report their
//! read ranges in conflict. [`Line`] is the line of one answer, ready to be printed.
//! [`print_report`] prints the lines of all answers in order, and then what failed, of each proxy
//! ([`ProxyFailure`]) and of the run ([`Ending`]). [`fail_to_start`] prints why a run could not
//! start. [`Status`] is how the program ends.
//!
//! [`print_line`] prints the line of one answer at once, and [`write_record`] writes the answer as
//! bytes for another program. [`print_unwritten`] names the proxies for which that failed.
//!
//! The texts are defined in `specs/Lines.antt`, `specs/Record.antt`, `specs/Failures.antt`,
//! `specs/Unwritten.antt` and `specs/Start.antt`, and which lines are shown in
//! `specs/LineFilter.antt`.
#![tactic(auto)]

mod failures;
mod line;
mod options;
mod records;
mod report;
mod start;
mod status;
mod stream;
mod unwritten;
mod version;

pub use failures::{
    Ending, ProxyFailure, begin_line, fault_text, note_loss, nothing_failed, print_failures,
};
pub use line::{Line, PackedText};
pub use options::{Form, LineFilter, Options, Reports, Style};
pub use records::write_record;
pub use report::{PrintError, Report, print_answers, print_report, print_sorted, sort_lines};
pub use start::{StartError, fail_to_start, print_start_error};
pub use status::Status;
pub use stream::{AnswerError, print_line};
pub use unwritten::{all_written, print_unwritten};
pub use version::version_of;
