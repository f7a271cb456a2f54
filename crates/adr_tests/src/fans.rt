//! Scripts that many readers answer. In one of them the readers, the editor and the input wait for one another.
use crate::scripts::{LATE_QUERY, MEETING, MEETING_TOLD, PRICE, PRICE_THREE_TIMES};
use crate::streams::{Pieces, Sink};
use adr_fan::{Gate, NoGate, fan};
use adr_resolver::{Logs, Tie};
use std::io::{Read, Write};
use std::sync::Arc;
use std::sync::atomic::{AtomicBool, Ordering};
use std::test::Fail;
use std::time::{Clock, Duration};
use std::{io, thread};

#[test]
fn three_readers_answer_each_query(rt: HostRuntime) -> Result<(), Fail> {
    let gate = Arc::new(rt.alloc(), NoGate)?;
    let mut reader = Pieces::new(PRICE, 65_536);
    let mut writer = Sink::new(rt.alloc(), 65_536, 65_536);
    let mut logs = Logs::new();
    let ended = fan(
        &rt,
        &mut reader,
        &mut writer,
        &mut logs,
        3,
        &gate,
        Tie::Newest,
    );
    assert!(rt; ended == Ok(()) && writer.taken.as_slice() == PRICE_THREE_TIMES);
    Ok(())
}

/// How often a wait looks again, a millisecond apart.
const TURNS: u32 = 10_000;

/// What has happened: each of two readers has a query, and the edit behind it has its reply. Each reader waits at its
/// first query for all of it. Where turns ran out, `missed` is set.
#[derive(Drop)]
struct FanMeeting<R> {
    rt: R,
    first: AtomicBool,
    second: AtomicBool,
    replied: AtomicBool,
    missed: AtomicBool,
}

impl<R: Clock> FanMeeting<R> {
    fn new(rt: R) -> FanMeeting<R> {
        FanMeeting {
            rt,
            first: AtomicBool::new(false),
            second: AtomicBool::new(false),
            replied: AtomicBool::new(false),
            missed: AtomicBool::new(false),
        }
    }

    /// Waits until both readers have a query, and the one thing more has happened.
    fn wait(&self, more: &AtomicBool) {
        for _ in 0..TURNS {
            if self.first.load(Ordering::SeqCst)
                && self.second.load(Ordering::SeqCst)
                && more.load(Ordering::SeqCst)
            {
                return;
            }
            thread::sleep(&self.rt, Duration::from_millis(1));
        }
        self.missed.store(true, Ordering::SeqCst);
    }
}

impl<R: Clock> Gate for FanMeeting<R> {
    fn pass(&self, worker: usize) {
        let mine = if worker == 0 {
            &self.first
        } else {
            &self.second
        };
        mine.store(true, Ordering::SeqCst);
        self.wait(&self.replied);
    }
}

/// Gives a first piece at once, and a second once both readers have a query.
#[derive(Drop)]
struct Late<'a, R> {
    first: Pieces<'a>,
    second: Pieces<'a>,
    meeting: &'a FanMeeting<R>,
}

impl<R: Clock> Read for Late<'_, R> {
    fn read(&mut self, buf: &mut [u8]) -> io::Result<usize> {
        let count = self.first.read(buf)?;
        if count > 0 {
            return Ok(count);
        }
        self.meeting.wait(&self.meeting.first);
        self.second.read(buf)
    }
}

/// Notes when it has been given the reply to the edit behind the first query.
#[derive(Drop)]
struct Noting<'a, R> {
    sink: Sink,
    meeting: &'a FanMeeting<R>,
}

impl<R> Write for Noting<'_, R> {
    fn write(&mut self, buf: &[u8]) -> io::Result<usize> {
        let outcome = self.sink.write(buf);
        if self.sink.taken.ends_with(b"ok 5\n") {
            self.meeting.replied.store(true, Ordering::SeqCst);
        }
        outcome
    }

    fn flush(&mut self) -> io::Result<()> {
        Ok(())
    }
}

#[test]
fn the_editor_goes_on_while_readers_answer(rt: HostRuntime) -> Result<(), Fail> {
    let gate = Arc::new(rt.alloc(), FanMeeting::new(rt.clone()?))?;
    let mut reader = Late {
        first: Pieces::new(MEETING, 65_536),
        second: Pieces::new(LATE_QUERY, 65_536),
        meeting: &gate,
    };
    let mut writer = Noting {
        sink: Sink::new(rt.alloc(), 65_536, 65_536),
        meeting: &gate,
    };
    let mut logs = Logs::new();
    let ended = fan(
        &rt,
        &mut reader,
        &mut writer,
        &mut logs,
        2,
        &gate,
        Tie::Newest,
    );
    assert!(rt; ended == Ok(()) && !gate.missed.load(Ordering::SeqCst));
    assert!(rt; writer.sink.taken.as_slice() == MEETING_TOLD);
    Ok(())
}
