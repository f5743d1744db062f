//! The summaries of all proxies.

ghost use Rattle.std.specs.Prelude.{◌≡◌, All, map, vec_items, IfErr, IfOk};
ghost use Rattle.keyspace.specs.storage.InOrder.{Rise};
ghost use Rattle.replay_summary.specs.Counted.{version_of};
ghost use Rattle.replay_summary.specs.Summary.{Fits, summary_of};

use crate::counted::HasCounted;
use crate::error::SummaryError;
use crate::one::summarize;
use crate::summary::Summary;
use std::alloc::Global;

/// Returns the summary of the answers to each proxy. Those to a proxy are sorted by version. An
/// error is `Memory` if all numbers are within 64 bits.
pub fn summarize_all<T: HasCounted>(
    alloc: Global,
    answers: &[Vec<T>],
) -> Result<Vec<Summary>, SummaryError>
    requires rise { All (Rise (λ answer. version_of (T.item_counted answer)))
        (map vec_items answers.now) }
    ensures summaries { IfOk result (λ summaries. summaries.items
        ≡ map (λ of_proxy. summary_of (map T.item_counted of_proxy)) (map vec_items answers.now)) }
    ensures memory { All (λ of_proxy. Fits (summary_of (map T.item_counted of_proxy)))
        (map vec_items answers.now) → IfErr result (λ error. error ≡ SummaryError.Memory) }
{
    let mut summaries = Vec::new(alloc);
    for of_proxy in answers {
        let Some(summary) = summarize(of_proxy) else {
            return Err(SummaryError::Count);
        };
        let Ok(()) = summaries.push(summary) else {
            return Err(SummaryError::Memory);
        };
    }
    Ok(summaries)
}
