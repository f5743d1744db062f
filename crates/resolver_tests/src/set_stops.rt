//! A conflict set that is refused memory stops for good.

use crate::chained::Chained;
use crate::made::{batch_at_last, is_reply};
use crate::set::LIMIT;
use conflict::SetStop;
use keyspace::WINDOW;
use std::alloc::Global;
use std::test::Fail;
use test_values::Unmade;

// Batches, each with the reply to it.
type Replied<'a> = &'a [(&'a str, &'a str)];

// Each batch reads, at snapshot 0, the keys that those before it wrote, and writes the next key.
const NUMBERED: Replied<'static> = &[
    ("-1>0: m R[0,0); W[0,0\0)", "0 committed committed"),
    ("0>1: m R[0,1); W[1,1\0)", "1 committed committed"),
    ("1>2: m R[0,2); W[2,2\0)", "2 conflict:0 committed"),
    ("2>3: m R[0,3); W[3,3\0)", "3 conflict:0 committed"),
    ("3>4: m R[0,4); W[4,4\0)", "4 conflict:0 committed"),
    ("4>5: m R[0,5); W[5,5\0)", "5 conflict:0 committed"),
];

const SNAPSHOT_AT_WRITE: Replied<'static> = &[
    ("-1>0", "0 empty"),
    ("0>100: W[a,b)", "100 committed"),
    ("100>200: R[a,b) @100", "200 committed"),
];

const REPORT_HISTORY_HITS: Replied<'static> = &[
    ("-1>0", "0 empty"),
    ("0>100: W[a,b) W[e,f)", "100 committed"),
    (
        "100>200: W[c,d) @100; m R[a,b) R[c,d) R[e,f) @50",
        "200 committed conflict:0,2",
    ),
];

// A set, in a second try where the first is refused memory.
fn set_at_last(alloc: Global) -> Result<Chained, Unmade> {
    match Chained::new(alloc, WINDOW, LIMIT) {
        Err(Unmade::Memory) => Chained::new(alloc, WINDOW, LIMIT),
        made => made,
    }
}

// Resolves a batch, and returns whether it is replied to so, or `None` at a stop.
fn resolves(
    alloc: Global,
    set: &mut Chained,
    (text, line): (&str, &str),
) -> Result<Option<bool>, Unmade> {
    let batch = batch_at_last(alloc, text)?;
    match set.resolve(&batch)? {
        Ok(reply) => Ok(Some(is_reply(alloc, &reply, line)?)),
        Err(SetStop::Memory) => Ok(None),
        Err(_stop) => Ok(Some(false)),
    }
}

// Resolves the batches, and returns whether each is replied to so until one is refused memory, and
// then none.
fn stops_for_good(alloc: Global, set: &mut Chained, replied: Replied) -> Result<bool, Unmade> {
    let mut is_stopped = false;
    for row in replied {
        match resolves(alloc, set, *row)? {
            Some(is_right) if is_stopped || !is_right => return Ok(false),
            Some(_is_right) => {}
            None => is_stopped = true,
        }
    }
    Ok(true)
}

fn new_set_stops_for_good(alloc: Global, replied: Replied) -> Result<bool, Unmade> {
    let mut set = set_at_last(alloc)?;
    stops_for_good(alloc, &mut set, replied)
}

#[test]
fn set_stops_at_one_growth_refused(rt: HostRuntime) -> Result<(), Fail> {
    for replied in [NUMBERED, SNAPSHOT_AT_WRITE, REPORT_HISTORY_HITS] {
        assert!(rt; new_set_stops_for_good(rt.alloc(), replied)?);
    }
    Ok(())
}
