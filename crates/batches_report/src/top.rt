//! The read ranges that were in conflict most.

ghost use Rattle.std.specs.Prelude.{◌≡◌, IfOk, map};
ghost use Rattle.batches_report.specs.Hottest.{AreHottest, range_of, ranges_in};

use crate::heat::Heat;
use std::alloc::{AllocError, Global};

/// A read range by its name, and how many transactions it was in conflict for.
#[derive(Debug, Drop)]
pub struct Hot {
    pub name: String,
    pub count: usize,
}

/// Returns the ranges with the greatest counts, at most this many, and the greatest first. Equal
/// counts are in the order of the names.
pub fn hottest(alloc: Global, heat: &Heat, most: usize) -> Result<Vec<Hot>, AllocError>
    ensures hottest { IfOk result (λ hot. AreHottest most heat.now hot.items) }
{
    let mut hot = ranges_of(alloc, heat)?;
    hot.sort_by(|left, right| right.count.cmp(&left.count))?;
    hot.truncate(most);
    Ok(hot)
}

// Returns all ranges, in the order of their names.
fn ranges_of(alloc: Global, heat: &Heat) -> Result<Vec<Hot>, AllocError>
    ensures all { IfOk result (λ hot. map range_of hot.items ≡ ranges_in heat.now) }
{
    let mut hot = Vec::new(alloc);
    for (name, count) in heat.counts.iter() {
        hot.push(Hot {
            name: String::from_str(alloc, name.as_str())?,
            count: *count,
        })?;
    }
    Ok(hot)
}
