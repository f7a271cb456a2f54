//! Questions of a publication.
use adr_calendar::{Calendar, at, list, roll, types};
use adr_object::Id;
use adr_test_values::lines::word;
use adr_test_values::telling::{tell_call, tell_want, told};
use adr_time::{Moment, read_moment};
use adr_value::{PayloadType, Refusal};
use std::alloc::Global;
use std::io;

/// `at ID MOMENT`, `list ID FROM TO`, `roll MOMENT` or `types ID`, of prices.
#[derive(Drop)]
enum Question {
    At(Id, Moment),
    List(Id, Moment, Moment),
    Roll(Moment),
    Types(Id),
}

fn at_of(alloc: Global, line: &str) -> Result<Question, Refusal> {
    let (id, moment) = word(line);
    let moment = read_moment(moment)?;
    Ok(Question::At(Id::read(alloc, id.as_bytes())?, moment))
}

fn list_of(alloc: Global, line: &str) -> Result<Question, Refusal> {
    let (id, line) = word(line);
    let (from, to) = word(line);
    let from = read_moment(from)?;
    let to = read_moment(to)?;
    Ok(Question::List(Id::read(alloc, id.as_bytes())?, from, to))
}

fn question_of(alloc: Global, line: &str) -> Result<Question, Refusal> {
    let (first, line) = word(line);
    match first {
        "at" => at_of(alloc, line),
        "list" => list_of(alloc, line),
        "roll" => Ok(Question::Roll(read_moment(line)?)),
        "types" => Ok(Question::Types(Id::read(alloc, line.as_bytes())?)),
        _ => Err(Refusal::BadLine),
    }
}

fn ask<C: Calendar>(alloc: Global, calendar: &C, question: &Question) -> Result<Vec<u8>, Refusal> {
    let price = PayloadType::Price;
    let answer = match question {
        Question::At(id, moment) => at(alloc, calendar, id, &price, *moment),
        Question::List(id, from, to) => list(alloc, calendar, id, &price, *from, *to),
        Question::Roll(moment) => roll(alloc, calendar, &price, *moment),
        Question::Types(id) => types(alloc, calendar, id),
    };
    drop(price);
    answer
}

/// The lines of the answer.
fn tell_lines<R: Print>(rt: &R, text: &str) -> io::Result<()> {
    for line in text.lines() {
        println!(rt; "  ordinary: {line}")?;
    }
    Ok(())
}

fn tell_bytes<R: Print>(rt: &R, bytes: &[u8]) -> io::Result<()> {
    tell_lines(rt, str::from_utf8(bytes).unwrap_or("no text"))
}

fn tell_answer<R: Print>(rt: &R, answer: Result<Vec<u8>, Refusal>) -> io::Result<()> {
    match answer {
        Ok(bytes) => {
            let lines = tell_bytes(rt, bytes.as_slice());
            drop(bytes);
            lines
        }
        Err(refusal) => println!(rt; "  ordinary: {refusal}"),
    }
}

/// Asks the publication the question of the line, again where the first answer had no memory, and tells its answer. The
/// line stands before it with its number.
pub(crate) fn try_ask<C: Calendar, R: AllocGlobal + Print>(
    rt: &R,
    calendar: &C,
    number: usize,
    line: &str,
) -> io::Result<()> {
    let question = told(question_of(rt.alloc(), line))?;
    tell_call(rt, line, number)?;
    let told = tell_asked(rt, calendar, &question);
    drop(question);
    told
}

fn tell_asked<C: Calendar, R: AllocGlobal + Print>(
    rt: &R,
    calendar: &C,
    question: &Question,
) -> io::Result<()> {
    match ask(rt.alloc(), calendar, question) {
        Err(Refusal::NoMemory) => {
            tell_want(rt)?;
            tell_answer(rt, ask(rt.alloc(), calendar, question))
        }
        answer => tell_answer(rt, answer),
    }
}

/// Asks the publication who governs at `ID MOMENT`, again where the first answer had no memory.
pub(crate) fn tell_at<C: Calendar, R: AllocGlobal + Print>(
    rt: &R,
    calendar: &C,
    line: &str,
) -> io::Result<()> {
    let question = told(at_of(rt.alloc(), line))?;
    let answer = match ask(rt.alloc(), calendar, &question) {
        Err(Refusal::NoMemory) => ask(rt.alloc(), calendar, &question),
        answer => answer,
    };
    drop(question);
    tell_answer(rt, answer)
}
