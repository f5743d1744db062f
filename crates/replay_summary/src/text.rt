//! The text of summaries.

ghost use Rattle.std.specs.Prelude.{◌≡◌, IfErr, IfOk};
ghost use Rattle.replay_summary.specs.Summary.{Fits, total_of};
ghost use Rattle.replay_summary.specs.Text.{text};

use crate::error::SummaryError;
use crate::occupancy::Occupancy;
use crate::summary::{Summary, total};
use json::put_object;
use std::alloc::Global;
use words::put_lines_of_run;

mod json;
mod number;
mod rate;
mod words;

/// The form of a summary.
#[derive(Clone, Copy, Debug, PartialEq, Eq)]
pub enum SummaryForm {
    /// One line of words per proxy, one for all, and one for the resolver.
    Words,
    /// One line of JSON: an object with an array of the proxies' objects, the numbers of all, and
    /// those of the resolver.
    Json,
}

/// Returns the text of the summary of each proxy, of all together, and of how full the resolver was
/// if that is known of one. It ends with a newline. A proxy's number is its index. An error is
/// `Memory` if all numbers are within 64 bits.
pub fn summary_text(
    alloc: Global,
    summaries: &[Summary],
    occupancy: Option<Occupancy>,
    form: SummaryForm,
) -> Result<Vec<u8>, SummaryError>
    ensures text { IfOk result (λ made. made.items ≡ text form occupancy summaries.now) }
    ensures memory { Fits (total_of summaries.now)
        → IfErr result (λ error. error ≡ SummaryError.Memory) }
{
    let Some(total) = total(summaries) else {
        return Err(SummaryError::Count);
    };
    let mut out = Vec::new(alloc);
    let put = match form {
        SummaryForm::Words => put_lines_of_run(&mut out, summaries, &total, occupancy),
        SummaryForm::Json => put_object(&mut out, summaries, &total, occupancy),
    };
    match put {
        Ok(()) => Ok(out),
        Err(_) => Err(SummaryError::Memory),
    }
}
