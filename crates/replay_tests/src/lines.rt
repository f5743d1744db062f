//! The lines of answers, on a writer that fails.

use crate::answers::push_line;
use keyspace::{Answer, Verdict};
use replay_program::{Line, PrintError, print_answers};
use std::alloc::{AllocError, Global};
use std::io;
use std::io::Write;
use std::test::Fail;
use test_values::{Unmade, entry, reply};
use wire::StdSink;

// A writer that takes this many bytes and then fails.
#[derive(Drop)]
struct Failing {
    room: usize,
}

impl Write for Failing {
    fn write(&mut self, buf: &[u8]) -> io::Result<usize> {
        if self.room == 0 {
            return Err(io::Error::from(io::ErrorKind::StorageFull));
        }
        let taken = self.room.min(buf.len());
        self.room -= taken;
        Ok(taken)
    }

    fn flush(&mut self) -> io::Result<()> {
        Ok(())
    }
}

// The lines of the first run, of its one proxy.
fn first_run(alloc: Global) -> Result<Vec<Vec<Line>>, Unmade> {
    let committed = vec![in alloc; entry(alloc, Verdict::Committed)].map_err(AllocError::from)?;
    let mut lines = Vec::new(alloc);
    let empty = Answer::Reply(reply(0, Vec::new(alloc))?);
    push_line(alloc, &mut lines, 0, empty)?;
    push_line(alloc, &mut lines, 0, Answer::Reply(reply(100, committed)?))?;
    Ok(vec![in alloc; lines].map_err(AllocError::from)?)
}

// Prints the lines to a writer that takes n bytes, and returns whether it fails.
fn fails_after(alloc: Global, room: usize) -> Result<bool, Unmade> {
    let mut received = first_run(alloc)?;
    let mut out = StdSink::new(Failing { room });
    match print_answers(alloc, &mut out, &mut received) {
        Ok(()) => Ok(false),
        Err(PrintError::Write) => Ok(true),
        Err(PrintError::Memory(_proxy)) => Err(Unmade::Memory),
    }
}

#[test]
fn writer_fails_everywhere(rt: HostRuntime) -> Result<(), Fail> {
    let text = "0 0 empty\n0 100 committed\n";
    for room in 0..=text.len() {
        let fails = fails_after(rt.alloc(), room)?;
        assert_eq!(rt; fails, room < text.len(), "after {room} bytes");
    }
    Ok(())
}
