//! The worked rows of the step map, and a growth that is refused.

use crate::written::{WrittenModel, shows};
use keyspace::Range;
use std::alloc::Global;
use std::process::Abort;
use std::test::Fail;
use stepmap::{MAX_LIMIT, StepError, SweepEnd};
use test_values::range;

// A call, with its answer.
#[derive(Clone, Copy)]
enum Step<'a> {
    // Writes the version between two keys. If memory is refused, the map has these versions at
    // keys, as before, and the next try succeeds.
    Write(&'a str, &'a str, i64, &'a str),
    // Prepares for a range between two keys.
    Prepare(&'a str, &'a str, Result<(), StepError>),
    Raise(i64),
    // Sweeps that many boundaries.
    Sweep(usize, SweepEnd),
    // There are that many boundaries, and these versions at keys.
    Has(usize, &'a str),
}

fn range_of(alloc: Global, begin: &str, end: &str) -> Result<Range, StepError> {
    match range(alloc, begin.as_bytes(), end.as_bytes()) {
        Ok(range) => Ok(range),
        Err(_refused) => Err(StepError::Memory),
    }
}

fn write_at_last(
    written: &mut WrittenModel,
    range: &Range,
    version: i64,
    before: &str,
) -> Result<bool, StepError> {
    match written.write(range, version) {
        Err(StepError::Memory) => {
            let is_as_before = shows(written.map(), before);
            Ok(written.write(range, version)? && is_as_before)
        }
        is_written => is_written,
    }
}

fn has(written: &WrittenModel, boundaries: usize, rows: &str) -> bool {
    let map = written.map();
    map.boundaries() == boundaries && shows(map, rows)
}

// Makes the call, and returns whether it answers so.
fn answers(written: &mut WrittenModel, alloc: Global, step: Step<'_>) -> Result<bool, StepError> {
    match step {
        Step::Write(begin, end, version, before) => {
            write_at_last(written, &range_of(alloc, begin, end)?, version, before)
        }
        Step::Prepare(begin, end, prepared) => {
            Ok(written.prepare(&range_of(alloc, begin, end)?) == prepared)
        }
        Step::Raise(edge) => Ok(written.raise(edge)),
        Step::Sweep(count, end) => Ok(written.sweep(count) == end),
        Step::Has(boundaries, rows) => Ok(has(written, boundaries, rows)),
    }
}

// Returns the index of the first step that is answered otherwise.
fn first_wrong(
    written: &mut WrittenModel,
    alloc: Global,
    steps: &[Step<'_>],
) -> Result<Option<usize>, StepError> {
    for (index, step) in steps.iter().enumerate() {
        if !answers(written, alloc, *step)? {
            return Ok(Some(index));
        }
    }
    Ok(None)
}

// Makes the steps over a new map of this limit.
fn outcome(alloc: Global, limit: usize, steps: &[Step<'_>]) -> Result<Option<usize>, StepError> {
    if limit == 0 || limit > MAX_LIMIT {
        return Err(StepError::Full);
    }
    let mut written = WrittenModel::new(alloc, limit)?;
    first_wrong(&mut written, alloc, steps)
}

fn go_through(
    rt: &impl Abort,
    alloc: Global,
    limit: usize,
    steps: &[Step<'_>],
) -> Result<(), Fail> {
    assert_eq!(rt; outcome(alloc, limit, steps)?, None);
    Ok(())
}

const OVERWRITE_AND_SWEEP: &[Step<'static>] = &[
    Step::Write("a", "d", 100, ""),
    Step::Write("b", "c", 200, ""),
    Step::Has(5, "=-1 a=100 b=200 c=100 d=-1"),
    Step::Raise(150),
    Step::Sweep(4, SweepEnd::Round),
    Step::Has(3, "=-1 a=-1 b=200 c=100 d=100"),
    Step::Raise(201),
    Step::Sweep(4, SweepEnd::Round),
    Step::Has(1, ""),
];

#[test]
fn step_map_overwrite_and_sweep(rt: HostRuntime) -> Result<(), Fail> {
    go_through(&rt, rt.alloc(), MAX_LIMIT, OVERWRITE_AND_SWEEP)
}

const PACED_SWEEP: &[Step<'static>] = &[
    Step::Write("a", "d", 100, ""),
    Step::Write("b", "c", 200, ""),
    Step::Raise(150),
    Step::Sweep(2, SweepEnd::Stopped),
    Step::Has(4, ""),
    Step::Sweep(1, SweepEnd::Stopped),
    Step::Has(4, ""),
    Step::Sweep(1, SweepEnd::Round),
    Step::Has(3, ""),
    Step::Sweep(5, SweepEnd::Round),
    Step::Has(3, "=-1 a=-1 b=200 c=100 d=100"),
];

#[test]
fn paced_sweep_rounds(rt: HostRuntime) -> Result<(), Fail> {
    go_through(&rt, rt.alloc(), MAX_LIMIT, PACED_SWEEP)
}

const SWEEP_AFTER_WRITE: &[Step<'static>] = &[
    Step::Write("a", "d", 100, ""),
    Step::Write("b", "c", 200, ""),
    Step::Raise(150),
    Step::Sweep(2, SweepEnd::Stopped),
    Step::Write("bb", "e", 300, ""),
    Step::Has(4, "=-1 b=200 bb=300 d=300 e=-1"),
    Step::Sweep(1, SweepEnd::Round),
    Step::Has(4, ""),
];

#[test]
fn paced_sweep_after_write(rt: HostRuntime) -> Result<(), Fail> {
    go_through(&rt, rt.alloc(), MAX_LIMIT, SWEEP_AFTER_WRITE)
}

const LIMIT_THREE: &[Step<'static>] = &[
    Step::Write("a", "b", 100, ""),
    Step::Prepare("c", "d", Err(StepError::Full)),
    Step::Has(3, "a=100"),
    Step::Raise(101),
    Step::Prepare("c", "d", Ok(())),
    Step::Has(1, ""),
];

#[test]
fn limit_three_step_map(rt: HostRuntime) -> Result<(), Fail> {
    go_through(&rt, rt.alloc(), 3, LIMIT_THREE)
}

const TWO_WRITES: &[Step<'static>] = &[
    Step::Write("a", "d", 100, "=-1 a=-1 d=-1"),
    Step::Write("b", "c", 200, "=-1 a=100 b=100 c=100 d=-1"),
    Step::Has(5, "=-1 a=100 b=200 c=100 d=-1"),
];

// Its outcome is the same whichever one growth is refused: `new` and the ranges are made at the
// next try, and `Step::Write` looks at the map after a refused `prepare`.
#[test]
fn one_growth_refused(rt: HostRuntime) -> Result<(), Fail> {
    match outcome(rt.alloc(), MAX_LIMIT, TWO_WRITES) {
        Ok(wrong) => assert_eq!(rt; wrong, None),
        Err(_refused) => go_through(&rt, rt.alloc(), MAX_LIMIT, TWO_WRITES)?,
    }
    Ok(())
}
