//! Runs that are refused memory: whichever one growth is refused, a run prints what it promises.

use crate::counting_gatekeeper::Counting;
use crate::rows::{
    FIRST_RUN_IN_FRAMES, HELD_OVERTAKEN, HELD_REPEAT_ANSWERED_TWICE, REPORT_HISTORY_HITS,
    SECOND_FILE_CONTINUES_CHAIN, SNAPSHOT_AT_WRITE, TestRow,
};
use crate::runs::{Reader, TestFile, readers_of, replay_into};
use replay_program::{Options, Reports, Status, Style, Unshared};
use std::alloc::{AllocError, Global};
use std::process::Abort;
use std::str;
use std::sync::{Arc, Wait};
use std::test::Fail;
use std::thread::Threads;
use test_values::Unmade;
use wire::StdSink;

// How the lines of a proxy begin.
fn line_start(proxy: usize) -> &'static str {
    if proxy == 0 { "0 " } else { "1 " }
}

// How a run has ended.
#[derive(Drop)]
struct EndedRun<'a> {
    status: Status,
    out: &'a str,
    error: &'a str,
    counts: &'a Counting,
}

impl EndedRun<'_> {
    // How many lines were printed of the proxy.
    fn count(&self, proxy: usize) -> u64 {
        let prefix = line_start(proxy);
        let lines = self.out.lines();
        lines.filter(|line| line.starts_with(prefix)).count() as u64
    }
}

impl TestRow<'_> {
    // Whether a run may end so.
    fn promises(&self, ended: &EndedRun) -> bool {
        if ended.error.is_empty() {
            return ended.status == Status::Done && ended.out == self.lines;
        }
        let line = ended.error.strip_prefix("replay: ");
        match line.and_then(|line| line.strip_suffix('\n')) {
            Some(refusal) => ended.status == Status::Failed && self.allows(refusal, ended),
            None => false,
        }
    }

    // Whether these lines may be printed where a line names this refusal.
    fn allows(&self, refusal: &str, ended: &EndedRun) -> bool {
        match refusal {
            "start 1 Memory" | "start 2 Thread" => ended.out.is_empty(),
            "stop 1 Memory" => self.has_all_taken(ended, 0) && self.has_all_taken(ended, 1),
            "proxy 0: memory" => self.has_loss(ended, 0, 1),
            "proxy 1: memory" => self.has_loss(ended, 1, 0),
            "proxy 0: wire 11 Memory" => self.is_cut(ended, 0),
            "proxy 1: wire 11 Memory" => self.is_cut(ended, 1),
            _ => false,
        }
    }

    // Whether the lines of the proxy are the first of those that it has with ample memory.
    fn begins(&self, ended: &EndedRun, proxy: usize) -> bool {
        let prefix = line_start(proxy);
        let mut expected = self.lines.lines().filter(|line| line.starts_with(prefix));
        for line in ended.out.lines() {
            if line.starts_with(prefix) && expected.next() != Some(line) {
                return false;
            }
        }
        true
    }

    // Whether there is a line of each answer that the proxy has taken.
    fn has_all_taken(&self, ended: &EndedRun, proxy: usize) -> bool {
        self.begins(ended, proxy) && ended.count(proxy) == ended.counts.taken(proxy)
    }

    // Whether a line of the first proxy is missing, and none of the other. If the sort is refused,
    // all are missing.
    fn has_loss(&self, ended: &EndedRun, proxy: usize, other: usize) -> bool {
        if ended.out.is_empty() {
            return true;
        }
        self.begins(ended, proxy)
            && ended.count(proxy) < ended.counts.taken(proxy)
            && self.has_all_taken(ended, other)
    }

    // Whether the lines are those of a file of the proxy that ends after the frames that were read.
    fn is_cut(&self, ended: &EndedRun, proxy: usize) -> bool {
        let Some(cut) = self.cut.get(proxy) else {
            return false;
        };
        cut.get(ended.counts.read(proxy) as usize) == Some(&ended.out)
    }
}

// What a run is made of.
#[derive(Drop)]
struct MemoryRun {
    readers: Vec<Reader>,
    gatekeeper: Arc<Unshared<Counting>, Global>,
    out: StdSink<Vec<u8>>,
    error: StdSink<Vec<u8>>,
}

// More bytes than a run prints.
const ROOM: usize = 1_000;

impl MemoryRun {
    // The outputs have room, so that no write is refused.
    fn new(alloc: Global, files: &[TestFile<'_>]) -> Result<Self, Unmade> {
        let out = StdSink::new(Vec::with_capacity(alloc, ROOM)?);
        let error = StdSink::new(Vec::with_capacity(alloc, ROOM)?);
        let gatekeeper = Arc::new(alloc, Unshared(Counting::new())).map_err(AllocError::from)?;
        let readers = readers_of(alloc, files)?;
        Ok(MemoryRun {
            readers,
            gatekeeper,
            out,
            error,
        })
    }

    // In a second try where the first is refused memory.
    fn new_at_last(alloc: Global, files: &[TestFile<'_>]) -> Result<Self, Unmade> {
        match MemoryRun::new(alloc, files) {
            Err(Unmade::Memory) => MemoryRun::new(alloc, files),
            made => made,
        }
    }
}

// Replays the files of a row, and returns whether the run may end as it has.
fn ends_as_promised<R: Threads + Wait + Copy + Send + 'static>(
    rt: &R,
    alloc: Global,
    row: &TestRow,
) -> Result<bool, Unmade> {
    ends_with(rt, alloc, row, Reports::Asked)
}

// The same where these transactions report.
fn ends_with<R: Threads + Wait + Copy + Send + 'static>(
    rt: &R,
    alloc: Global,
    row: &TestRow,
    reports: Reports,
) -> Result<bool, Unmade> {
    let MemoryRun {
        readers,
        gatekeeper,
        mut out,
        mut error,
    } = MemoryRun::new_at_last(alloc, row.files)?;
    let mut options = Options::default();
    options.style = Style::all(row.form);
    options.reports = reports;
    let status = replay_into(
        rt,
        alloc,
        readers,
        options,
        &gatekeeper,
        &mut out,
        &mut error,
    )?;
    let (out, error) = (out.into_inner(), error.into_inner());
    let (Ok(out), Ok(error)) = (str::from_utf8(&out), str::from_utf8(&error)) else {
        return Err(Unmade::Text("UTF-8"));
    };
    let counts: &Counting = &gatekeeper.0;
    Ok(row.promises(&EndedRun {
        status,
        out,
        error,
        counts,
    }))
}

#[test]
fn snapshot_at_write_with_one_growth_refused(rt: HostRuntime) -> Result<(), Fail> {
    assert!(rt; ends_as_promised(&rt, rt.alloc(), &SNAPSHOT_AT_WRITE)?);
    Ok(())
}

#[test]
fn report_history_hits_with_one_growth_refused(rt: HostRuntime) -> Result<(), Fail> {
    assert!(rt; ends_as_promised(&rt, rt.alloc(), &REPORT_HISTORY_HITS)?);
    Ok(())
}

// The transaction in conflict asks for its report, so the lines are the same.
#[test]
fn report_all_with_one_growth_refused(rt: HostRuntime) -> Result<(), Fail> {
    assert!(rt; ends_with(&rt, rt.alloc(), &REPORT_HISTORY_HITS, Reports::All)?);
    Ok(())
}

#[test]
fn held_repeat_answered_twice_with_one_growth_refused(rt: HostRuntime) -> Result<(), Fail> {
    assert!(rt; ends_as_promised(&rt, rt.alloc(), &HELD_REPEAT_ANSWERED_TWICE)?);
    Ok(())
}

#[test]
fn held_overtaken_with_one_growth_refused(rt: HostRuntime) -> Result<(), Fail> {
    assert!(rt; ends_as_promised(&rt, rt.alloc(), &HELD_OVERTAKEN)?);
    Ok(())
}

#[test]
fn second_file_with_one_growth_refused(rt: HostRuntime) -> Result<(), Fail> {
    assert!(rt; ends_as_promised(&rt, rt.alloc(), &SECOND_FILE_CONTINUES_CHAIN)?);
    Ok(())
}

#[test]
fn frames_with_one_growth_refused(rt: HostRuntime) -> Result<(), Fail> {
    assert!(rt; ends_as_promised(&rt, rt.alloc(), &FIRST_RUN_IN_FRAMES)?);
    Ok(())
}
