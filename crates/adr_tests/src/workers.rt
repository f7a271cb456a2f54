//! That two workers run at once.
use adr_board::{Desk, Gate};
use adr_model::Tie;
use adr_test_values::bodies::edit;
use adr_value::Refusal;
use std::alloc::Global;
use std::sync::atomic::{AtomicBool, Ordering};
use std::test::Fail;
use std::thread::{self, Threads};
use std::time::{Clock, Duration};

/// A program, two vens with a resource each, and events that apply to one or to both, under one type or two.
const EDITS: &str = r#"create program p1 {"programName":"P"}
create ven v1 {"venName":"V"}
create ven v2 {"venName":"W"}
create resource r1 {"resourceName":"R","venID":"v1"}
create resource r2 {"resourceName":"Q","venID":"v2"}
create event e1 {"programID":"p1","targets":[{"type":"RESOURCE_NAME","values":["R"]}],"intervalPeriod":{"start":"1970-01-01T00:00:00Z","duration":"PT2H"},"intervals":[{"payloads":[{"type":"PRICE","values":[1]},{"type":"X_LOAD","values":[1]}]}]}
create event e2 {"programID":"p1","priority":1,"intervalPeriod":{"start":"1970-01-01T01:00:00Z","duration":"PT3H"},"intervals":[{"payloads":[{"type":"PRICE","values":[1]}]},{"payloads":[{"type":"SIMPLE","values":[1]},{"type":"X_LOAD","values":[1]}]}]}
change event e1 {"programID":"p1","intervalPeriod":{"start":"1970-01-01T00:00:00Z","duration":"PT5H"},"intervals":[{"payloads":[{"type":"PRICE","values":[1]},{"type":"X_LOAD","values":[1]},{"type":"X_OTHER","values":[1]}]}]}
create event e3 {"programID":"p1","targets":[{"type":"RESOURCE_NAME","values":["Q"]}],"priority":0,"intervalPeriod":{"start":"1970-01-01T03:00:00Z","duration":"PT1H"},"intervals":[{"payloads":[{"type":"PRICE","values":[1]}]}]}
create event e4 {"programID":"p1","targets":[{"type":"VEN_NAME","values":["V2"]}],"intervalPeriod":{"start":"1970-01-01T02:00:00Z","duration":"PT6H"},"intervals":[{"payloads":[{"type":"PRICE","values":[1]},{"type":"X_OTHER","values":[1]}]}]}
change ven v1 {"venName":"V2"}
change resource r2 {"resourceName":"Q","venID":"v1"}
change program p1 {"programName":"P","targets":[{"type":"RESOURCE_NAME","values":["R"]}]}
change resource r1 {"resourceName":"R","venID":"v2"}
change ven v2 {"venName":"V2"}
change program p1 {"programName":"P"}
delete event e2 -"#;

/// An event for one of two resources, under two types.
const TWO_TYPES: &str = r#"create program p1 {"programName":"P"}
create ven v1 {"venName":"V"}
create resource r1 {"resourceName":"R","venID":"v1"}
create resource r2 {"resourceName":"Q","venID":"v1"}
create event e1 {"programID":"p1","intervals":[{"id":0,"intervalPeriod":{"start":"2024-01-01T00:00:00Z","duration":"PT2H"},"payloads":[{"type":"PRICE","values":[10]},{"type":"X_LOAD","values":["a b",true,{"x":1,"y":2.50}]}]}],"targets":[{"type":"RESOURCE_NAME","values":["R"]}]}"#;

/// Edits, and how many of them go before one that has two jobs or more: changes of an event, of a ven, of a resource and of
/// a program, an event that goes, and one that comes.
const MEETINGS: [(&str, usize); 6] = [
    (EDITS, 7),
    (EDITS, 10),
    (EDITS, 11),
    (EDITS, 12),
    (EDITS, 16),
    (TWO_TYPES, 4),
];

/// Each of two workers waits at its first job until the other has begun.
#[derive(Drop)]
struct WorkerMeeting<R> {
    rt: R,
    first: AtomicBool,
    second: AtomicBool,
    missed: AtomicBool,
}

impl<R> WorkerMeeting<R> {
    fn new(rt: R) -> WorkerMeeting<R> {
        WorkerMeeting {
            rt,
            first: AtomicBool::new(false),
            second: AtomicBool::new(false),
            missed: AtomicBool::new(false),
        }
    }

    /// Whether both came, and neither left alone.
    fn have_met(&self) -> bool {
        self.first.load(Ordering::SeqCst)
            && self.second.load(Ordering::SeqCst)
            && !self.missed.load(Ordering::SeqCst)
    }
}

impl<R: Clock> Gate for WorkerMeeting<R> {
    fn pass(&self, worker: usize) {
        let (mine, other) = if worker == 0 {
            (&self.first, &self.second)
        } else {
            (&self.second, &self.first)
        };
        mine.store(true, Ordering::SeqCst);
        for _ in 0..10_000 {
            if other.load(Ordering::SeqCst) {
                return;
            }
            thread::sleep(&self.rt, Duration::from_millis(1));
        }
        self.missed.store(true, Ordering::SeqCst);
    }
}

/// Makes so many of the edits by one thread.
fn prepare(alloc: Global, desk: &mut Desk, edits: &str, count: usize) -> Result<(), Refusal> {
    for line in edits.lines().take(count) {
        let receipt = desk.apply(edit(alloc, line)?)?;
        drop(receipt);
    }
    Ok(())
}

/// Makes the edit of the line by two workers.
fn make_by_two<G: Gate + Sync>(
    alloc: Global,
    rt: &(impl Threads + Sync),
    gate: &G,
    desk: &mut Desk,
    line: &str,
) -> Result<(), Refusal> {
    let receipt = desk.apply_with(rt, 2, gate, edit(alloc, line)?)?;
    drop(receipt);
    Ok(())
}

/// Makes so many of the edits by one thread, and the next by two workers.
fn make_all<G: Gate + Sync>(
    alloc: Global,
    rt: &(impl Threads + Sync),
    gate: &G,
    desk: &mut Desk,
    (edits, count): (&str, usize),
) -> Result<(), Refusal> {
    prepare(alloc, desk, edits, count)?;
    let line = edits.lines().nth(count).ok_or(Refusal::BadLine)?;
    make_by_two(alloc, rt, gate, desk, line)
}

/// Whether the workers of the edit behind so many run at once.
fn meet<R: AllocGlobal + Clock + Threads + Sync>(
    rt: &R,
    gate: &WorkerMeeting<R>,
    tie: Tie,
    edits: (&str, usize),
) -> Result<bool, Refusal> {
    let mut desk = Desk::new(rt.alloc(), tie)?;
    let made = make_all(rt.alloc(), rt, gate, &mut desk, edits);
    drop(desk);
    made?;
    Ok(gate.have_met())
}

#[test]
fn two_workers_run_at_once(rt: HostRuntime) -> Result<(), Fail> {
    for edits in MEETINGS {
        for tie in [Tie::Newest, Tie::LatestStart] {
            let meeting = WorkerMeeting::new(rt.clone()?);
            assert!(rt; meet(&rt, &meeting, tie, edits)?, "{}", edits.1);
        }
    }
    Ok(())
}
