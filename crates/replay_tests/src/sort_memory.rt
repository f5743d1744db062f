//! Lines whose sort may be refused memory.

use crate::answers::push_line;
use crate::runs::ended;
use keyspace::Answer;
use replay_program::{Ending, Line, ProxyFailure, print_report};
use std::alloc::{AllocError, Global};
use std::test::Fail;
use test_values::Unmade;
use wire::StdSink;

// Nothing failed.
const CLEAN: ProxyFailure = ProxyFailure {
    fault: None,
    lost: false,
};

// One answer to proxy 0, and more answers to proxy 1 than are sorted without memory, the last ones
// first. The outputs have room for their lines.
fn to_sort(alloc: Global) -> Result<(Vec<Vec<Line>>, Vec<u8>, Vec<u8>), Unmade> {
    let mut one = Vec::new(alloc);
    push_line(alloc, &mut one, 0, Answer::Held(7))?;
    let mut many = Vec::new(alloc);
    for version in (0..21_u32).rev() {
        push_line(alloc, &mut many, 1, Answer::Held(i64::from(version)))?;
    }
    let received = vec![in alloc; one, many].map_err(AllocError::from)?;
    Ok((
        received,
        Vec::with_capacity(alloc, 1_000)?,
        Vec::with_capacity(alloc, 1_000)?,
    ))
}

// Reports them. Returns whether the answers were printed, and what comes of the report.
fn sorted(alloc: Global) -> Result<(bool, String), Unmade> {
    let (mut received, out, error) = match to_sort(alloc) {
        Err(Unmade::Memory) => to_sort(alloc)?,
        made => made?,
    };
    if received.len() != 2 {
        return Err(Unmade::Beyond("proxies"));
    }
    let mut failures = [CLEAN, CLEAN];
    let (mut out, mut error) = (StdSink::new(out), StdSink::new(error));
    let complete = Ending::Complete;
    let report = print_report(
        alloc,
        &mut out,
        &mut error,
        &mut received,
        &mut failures,
        complete,
    );
    let found = ended(report.status, out.into_inner(), &error.into_inner())?;
    Ok((report.printed.is_ok(), found))
}

// If the sort is refused memory, nothing is printed, and the loss is that of the proxy whose lines
// were to be sorted.
#[test]
fn sort_with_one_growth_refused(rt: HostRuntime) -> Result<(), Fail> {
    let (is_printed, found) = sorted(rt.alloc())?;
    if is_printed {
        assert!(rt;
            found.as_str().starts_with("0 7 held\n1 0 held\n1 1 held\n"),
            "{found}"
        );
        assert!(rt; found.as_str().ends_with("1 20 held\ndone: "), "{found}");
    } else {
        assert_eq!(rt; found.as_str(), "failed: replay: proxy 1: memory\n");
    }
    Ok(())
}
