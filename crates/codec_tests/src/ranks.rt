//! The ranks of a batch's ranges, if a growth is refused.

use crate::rows::expect;
use keys::{GapRuns, MAX_RANKED};
use keyspace::Txns;
use std::alloc::Global;
use std::test::Fail;
use test_values::{Unmade, batch};

// Five ranges with five begins, and an empty range.
const THREE_TXNS: &str = "0>1: R[b,d) R[m,m) W[a,c); W[aa,y); R[c,d) W[,a)";

// The indices of the ranges in order, each with its begin in hexadecimal, those of the write
// ranges, and the runs.
fn show_ranks(alloc: Global, txns: &Txns) -> Result<String, Unmade> {
    let ranges = txns.ranges();
    if ranges.len() > MAX_RANKED {
        return Err(Unmade::Beyond("ranges"));
    }
    let mut text = String::from_str(alloc, "order")?;
    let (ranks, order) = GapRuns::with_order(alloc, &ranges)?;
    for index in &order {
        if *index as usize >= ranges.len() {
            return Err(Unmade::Beyond("order"));
        }
        let begin = hex::encode(alloc, ranges.get(*index as usize).begin())?;
        write!(text, " {index}[{begin}]")?;
    }
    text.push_str(", writes")?;
    for index in txns.write_order() {
        write!(text, " {index}")?;
    }
    text.push_str(", runs")?;
    for (begin, end) in txns.ranks().runs() {
        write!(text, " {begin}-{end}")?;
    }
    if ranks.runs() != txns.ranks().runs() {
        return Err(Unmade::Beyond("runs"));
    }
    Ok(text)
}

// The ranks of the batch of a text.
fn ranks_of(alloc: Global, text: &str) -> Result<String, Unmade> {
    let batch = batch(alloc, text)?;
    show_ranks(alloc, &batch.txns)
}

const THREE_RANKS: &str =
    "order 5[] 2[61] 3[6161] 0[62] 4[63], writes 5 2 3, runs 3-5 0-0 1-4 2-5 4-5 0-1";

// Whichever growth is refused, of the transactions or of their ranks, the next try succeeds.
#[test]
fn one_growth_refused(rt: HostRuntime) -> Result<(), Fail> {
    let alloc = rt.alloc();
    match ranks_of(alloc, THREE_TXNS) {
        Ok(ranks) => assert_eq!(rt; ranks.as_str(), THREE_RANKS),
        Err(_refused) => expect(&rt, ranks_of(alloc, THREE_TXNS), THREE_RANKS)?,
    }
    Ok(())
}
