//! Two proxies that wait for each other.
//!
//! A program that replays its proxies one after another on one thread is refused here: neither
//! proxy would send on before the other was answered.

use crate::runs::{readers_of, replayed_from};
use lane::MAX_CAPACITY;
use replay_program::{Gatekeeper, Options, Unshared};
use std::alloc::{AllocError, Global};
use std::process::Abort;
use std::sync::atomic::{AtomicU64, Ordering};
use std::sync::{Arc, Wait};
use std::test::Fail;
use std::thread::Threads;
use test_values::Unmade;

// How many questions are refused before all batches pass.
const MAX_REFUSED: u64 = 1_000_000;

// Proxy 1 sends its first batch only after the first of proxy 0 was answered, and proxy 0 its
// second only after that.
#[derive(Drop)]
struct Meeting {
    // how many of the first answers of proxies 0 and 1 were taken
    answered: [AtomicU64; 2],
    refused: AtomicU64,
    // the places of a batch and of an answer of proxy 0 that were reported last
    batch: AtomicU64,
    answer: AtomicU64,
}

impl Meeting {
    fn new() -> Self {
        Meeting {
            answered: [AtomicU64::new(0), AtomicU64::new(0)],
            refused: AtomicU64::new(0),
            batch: AtomicU64::new(0),
            answer: AtomicU64::new(0),
        }
    }

    fn has_answered(&self, proxy: usize) -> bool {
        let Some(answered) = self.answered.get(proxy) else {
            return false;
        };
        answered.load(Ordering::SeqCst) > 0
    }

    // Whether no batch had to pass for want of patience, and the places of proxy 0 were counted up
    // to its second batch and answer.
    fn has_met(&self) -> bool {
        self.refused.load(Ordering::SeqCst) <= MAX_REFUSED
            && self.batch.load(Ordering::SeqCst) == 1
            && self.answer.load(Ordering::SeqCst) == 1
    }
}

impl Gatekeeper for Meeting {
    fn may_send(&self, proxy: usize, place: u64) -> bool {
        if proxy == 0 {
            self.batch.store(place, Ordering::SeqCst);
        }
        let is_open = match (proxy, place) {
            (1, 0) => self.has_answered(0),
            (0, 1) => self.has_answered(1),
            _ => true,
        };
        is_open || self.refused.fetch_add(1, Ordering::SeqCst) >= MAX_REFUSED
    }

    fn answered(&self, proxy: usize, place: u64) {
        if proxy == 0 {
            self.answer.store(place, Ordering::SeqCst);
        }
        if let (Some(answered), 0) = (self.answered.get(proxy), place) {
            answered.store(1, Ordering::SeqCst);
        }
    }
}

// Replays a file for each of the two, and returns what comes of it, and whether they have met.
fn met<R: Threads + Wait + Copy + Send + 'static>(
    rt: &R,
    alloc: Global,
    options: Options,
) -> Result<(String, bool), Unmade> {
    let readers = readers_of(alloc, &[(&["-1>0", "100>200"], b""), (&["0>100"], b"")])?;
    let meeting = Arc::new(alloc, Unshared(Meeting::new())).map_err(AllocError::from)?;
    let text = replayed_from(rt, alloc, readers, options, &meeting)?;
    Ok((text, meeting.0.has_met()))
}

// Replays by lanes of this capacity.
fn meet<R: Abort + AllocGlobal + Threads + Wait + Copy + Send + 'static>(
    rt: &R,
    capacity: usize,
) -> Result<(), Fail> {
    let mut options = Options::default();
    if capacity == 0 || capacity > MAX_CAPACITY {
        return Err("a capacity out of its range")?;
    }
    options.capacity = capacity;
    let (text, has_met) = met(rt, rt.alloc(), options)?;
    assert_eq!(rt;
        text.as_str(),
        "0 0 empty\n0 200 empty\n1 100 empty\ndone: "
    );
    assert!(rt; has_met);
    Ok(())
}

// By lanes of the default capacity.
#[test]
fn two_proxies_meet(rt: HostRuntime) -> Result<(), Fail> {
    meet(&rt, 16)
}

#[test]
fn two_proxies_meet_narrow_and_wide(rt: HostRuntime) -> Result<(), Fail> {
    meet(&rt, 1)?;
    meet(&rt, MAX_CAPACITY)
}

// A program that replays the proxies one after another on one thread is refused: neither proxy's
// batch is answered before the other's, so the gatekeeper gives up.
#[test]
fn one_thread_only(rt: HostRuntime) -> Result<(), Fail> {
    meet(&rt, 2)
}
