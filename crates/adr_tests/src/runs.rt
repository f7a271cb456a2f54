//! Whole runs over streams that give and take little and that fail, of bytes that no transcript holds, and of a machine
//! that can't answer.
use crate::scripts::{PRICE, PRICE_EDITED, PRICE_TOLD, TARGET, TARGET_TOLD};
use crate::streams::{Pieces, Sink};
use adr_resolver::{Fault, Logs, Tie, run};
use adr_script::{Machine, Unanswered, serve};
use std::sync::Wait;
use std::test::Fail;
use std::thread::Threads;

/// Whether a run between these streams ends so, and writes that.
fn tells(
    rt: &(impl AllocGlobal + Threads + Wait + Sync),
    reader: &mut Pieces,
    writer: &mut Sink,
    outcome: Result<(), Fault>,
    text: &[u8],
) -> bool {
    let mut logs = Logs::new();
    let ended = run(rt, reader, writer, &mut logs, 1, Tie::Newest);
    ended == outcome && writer.taken.as_slice() == text
}

/// Whether a run over this script alone writes that.
fn answers(rt: &(impl AllocGlobal + Threads + Wait + Sync), script: &[u8], text: &[u8]) -> bool {
    let mut reader = Pieces::new(script, 65_536);
    let mut writer = Sink::new(rt.alloc(), 1000, 1000);
    tells(rt, &mut reader, &mut writer, Ok(()), text)
}

#[test]
fn any_pieces_give_one_text(rt: HostRuntime) {
    for (piece, taken, writes) in [
        (1, 1, PRICE_TOLD.len()),
        (3, 1, PRICE_TOLD.len()),
        (65_536, 1, PRICE_TOLD.len()),
        (65_536, 65_536, 1),
    ] {
        for interrupts in [false, true] {
            let mut reader = Pieces::new(PRICE, piece);
            reader.interrupts = interrupts;
            let mut writer = Sink::new(rt.alloc(), taken, 1000);
            writer.interrupts = interrupts;
            let is_told = tells(&rt, &mut reader, &mut writer, Ok(()), PRICE_TOLD);
            assert!(rt; is_told && writer.writes == writes);
        }
    }
}

#[test]
fn complete_lines_are_answered_before_a_fault(rt: HostRuntime) {
    for left in 1..33usize {
        let mut reader = Pieces::new(&PRICE[..PRICE.len() - left], 50);
        reader.fails = true;
        let mut writer = Sink::new(rt.alloc(), 100, 1000);
        let failed = Err(Fault::Reading);
        assert!(rt; tells(&rt, &mut reader, &mut writer, failed, PRICE_EDITED));
    }
}

#[test]
fn a_failed_write_ends_the_run(rt: HostRuntime) {
    for room in 0..TARGET_TOLD.len() {
        for fails in [false, true] {
            let mut reader = Pieces::new(TARGET, 65_536);
            let mut writer = Sink::new(rt.alloc(), 7, room);
            writer.fails = fails;
            let (failed, text) = (Err(Fault::Writing), &TARGET_TOLD[..room]);
            assert!(rt; tells(&rt, &mut reader, &mut writer, failed, text));
        }
    }
}

#[test]
fn bytes_that_no_transcript_holds_are_answered(rt: HostRuntime) {
    let runs: [(&[u8], &[u8]); 4] = [
        (b"", b""),
        (b"\n\r", b"refused 2 BadLine\nrefused 2 BadLine\n"),
        (
            b"at r1 \xff 2024-01-01T00:30:00Z\n",
            b"refused 12 BadText\n",
        ),
        (
            b"edit 2024-01-01T00:00:00Z create program x1 {\"programName\":\"\xff\"}\n",
            b"refused 6 BadJson\n",
        ),
    ];
    for (script, text) in runs {
        assert!(rt; answers(&rt, script, text));
    }
}

#[test]
fn lines_have_a_greatest_length(rt: HostRuntime) -> Result<(), Fail> {
    let runs: [(usize, &[u8]); 2] = [
        (4_194_304, b"refused 2 BadLine\n"),
        (4_194_305, b"refused 1 LongLine\n"),
    ];
    for (length, text) in runs {
        let line = vec![in rt.alloc(); b'a'; length]?;
        assert!(rt; answers(&rt, &line, text));
    }
    Ok(())
}

/// Gives each line the same reply, and finds no runtime for an empty one.
#[derive(Drop)]
struct Halting;

impl Machine for Halting {
    ghost answers = { λ _ _ _ _. Unit {0} };

    ghost halts = { Unit {0} };

    fn answer<H: AllocGlobal + Threads + Wait>(
        &mut self,
        _rt: &H,
        line: &[u8],
        reply: &mut Vec<u8>,
    ) -> Result<(), Unanswered> {
        if line.is_empty() {
            return Err(Unanswered::NoRuntime);
        }
        reply.extend_from_slice(b"there\n")?;
        Ok(())
    }
}

#[test]
fn a_machine_without_a_runtime_ends_the_run(rt: HostRuntime) {
    let mut writer = Sink::new(rt.alloc(), 100, 1000);
    let mut logs = Logs::new();
    let mut reader = Pieces::new(b"a\nb\n\nc\n", 65_536);
    let ended = serve(&rt, &mut reader, &mut writer, &mut logs, &mut Halting);
    assert!(rt; ended == Err(Fault::Runtime));
    assert!(rt; writer.taken.as_slice() == b"there\nthere\n".as_slice());
}

#[test]
fn a_fault_that_no_run_meets_has_its_text(rt: HostRuntime) -> Result<(), Fail> {
    let text = format!(in rt.alloc(); "{}", Fault::Reads)?;
    assert!(rt; text.as_str() == "too many reads");
    Ok(())
}
