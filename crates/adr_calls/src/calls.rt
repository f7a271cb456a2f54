//! Calls that lines name, each made of what they are tried on and, once it has answered, of its twin.
use adr_object::Edit;
use adr_test_values::lines::{edit, word};
use adr_test_values::telling::{tell_call, tell_ordinary, tell_refused, tell_same, told};
use adr_value::Refusal;
use std::alloc::Global;
use std::io;
use std::sync::Wait;
use std::thread::Threads;

/// A call of a book, a desk or a board.
#[derive(Drop)]
pub(crate) enum Call {
    /// Makes the edit by so many workers, or by `apply` where there are none.
    Apply(usize, Edit),
    /// Judges the edit, and makes nothing of it.
    Judge(Edit),
    /// Closes the open batch.
    Seal,
    /// Goes on with a copy.
    Copy,
    /// Goes on with a desk that is filled at once with the edits so far.
    Load,
    /// Makes what is there, or was published last, the base.
    Condense,
    /// Publishes what is there.
    Publish,
    /// Lets a reader look.
    Look(usize),
    /// Tells a reader which publication is the last.
    Tell(usize),
}

/// What calls are tried on: a book, a desk or a board, each beside a twin.
pub(crate) trait Tried {
    ghost use denote.Param.Send.{IsSync};

    /// Makes all ready for the call.
    fn prepare(&mut self, call: &Call) -> Result<(), Refusal>;

    /// Makes the call. The clause says again what a bound says, of which a method's body is not told.
    fn make<R: AllocGlobal + Wait + Threads + Sync>(
        &mut self,
        rt: &R,
        call: &Call,
    ) -> Result<u64, Refusal>
        requires { IsSync R.row };

    /// Makes the call of the twin, as far as that shows something: what is to be answered.
    fn repeat(&mut self, call: &Call) -> Result<u64, Refusal>;

    /// Whether all is as before the call or, where it is made, as it leaves all.
    fn is_left(&self, call: &Call, is_made: bool) -> bool;
}

fn number(word: &str) -> usize {
    word.parse::<usize>().unwrap_or(0)
}

/// The call of the line: `seal`, `copy`, `load`, `condense`, `publish`, `look READER`, `tell READER`, an edit (`create
/// program p1`), `judge` and an edit, or `by COUNT` and an edit for so many workers.
fn call_of(alloc: Global, line: &str) -> Result<Call, Refusal> {
    let (first, rest) = word(line);
    match first {
        "seal" => Ok(Call::Seal),
        "copy" => Ok(Call::Copy),
        "load" => Ok(Call::Load),
        "condense" => Ok(Call::Condense),
        "publish" => Ok(Call::Publish),
        "look" => Ok(Call::Look(number(rest))),
        "tell" => Ok(Call::Tell(number(rest))),
        "judge" => Ok(Call::Judge(edit(alloc, rest)?)),
        "by" => {
            let (workers, line) = word(rest);
            Ok(Call::Apply(number(workers), edit(alloc, line)?))
        }
        _ => Ok(Call::Apply(0, edit(alloc, line)?)),
    }
}

/// Whether the call was refused for want of memory; those that begin threads or look may find no runtime then.
fn is_for_want(call: &Call, answer: Result<u64, Refusal>) -> bool {
    match answer {
        Err(Refusal::NoMemory) => true,
        Err(Refusal::NoRuntime) => matches!(call, Call::Load | Call::Look(_)),
        _ => false,
    }
}

/// Makes the call, again where there was no memory, and tells what it answers and leaves.
fn tell_tried<T: Tried, R: AllocGlobal + Print + Wait + Threads + Sync>(
    rt: &R,
    tried: &mut T,
    call: &Call,
) -> io::Result<()> {
    let mut answer = tried.make(rt, call);
    if is_for_want(call, answer) {
        tell_refused(rt, tried.is_left(call, false))?;
        answer = tried.make(rt, call);
    }
    tell_ordinary(rt, answer)?;
    let expected = tried.repeat(call);
    tell_same(rt, answer == expected && tried.is_left(call, true))
}

/// Makes the call of the line, which stands before it with its number.
pub(crate) fn try_line<T: Tried, R: AllocGlobal + Print + Wait + Threads + Sync>(
    rt: &R,
    tried: &mut T,
    number: usize,
    line: &str,
) -> io::Result<()> {
    let call = told(call_of(rt.alloc(), line))?;
    let prepared = tried.prepare(&call);
    tell_call(rt, line, number)?;
    let tried = tell_tried(rt, tried, &call);
    drop(call);
    told(prepared)?;
    tried
}

/// Makes the calls of the lines.
pub(crate) fn try_lines<T: Tried, R: AllocGlobal + Print + Wait + Threads + Sync>(
    rt: &R,
    tried: &mut T,
    lines: &str,
) -> io::Result<()> {
    for (place, line) in lines.lines().enumerate() {
        try_line(rt, tried, place, line)?;
    }
    Ok(())
}
