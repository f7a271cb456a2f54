//! Edits, judged and committed one after the other.
ghost use Rattle.std.specs.Prelude.{◌≡◌, ◌++◌, [], IfOk, Ok, Err};
ghost use Rattle.adr_refusal.specs.Answer.{OnlyNoMemory, result_map};
ghost use Rattle.adr_model.specs.Book.{empty};
ghost use Rattle.adr_model.specs.Edits.{full_at, step_to};
ghost use Rattle.adr_desk.specs.Loaded.{accepted_of, answers_to, if_accepted, left_by, objects_after};

use adr_book::{Book, judge};
use adr_object::Edit;
use adr_value::Refusal;
use std::alloc::Global;

/// Makes the edit, and answers the version or why it is refused; then the book is as it was.
fn commit_one(book: &mut Book, edit: Edit) -> Result<Result<u64, Refusal>, Refusal>
    ensures answer { IfOk result (λ answer. answer ≡ result_map (λ b. b.version) (step_to (full_at book.old.base.version) book.old.objects edit)) }
    ensures objects { IfOk result (λ answer. book.new.objects ≡ left_by book.old.objects (step_to (full_at book.old.base.version) book.old.objects edit)) }
    ensures pending { IfOk result (λ answer. book.new.pending ≡ book.old.pending ++ if_accepted edit (step_to (full_at book.old.base.version) book.old.objects edit) []) }
    ensures closed { book.new.closed ≡ book.old.closed }
    ensures base { book.new.base ≡ book.old.base }
    ensures refusal { OnlyNoMemory result }
{
    if let Err(refusal) = judge(book, &edit) {
        if refusal == Refusal::NoMemory {
            return Err(refusal);
        }
        return Ok(Err(refusal));
    }
    let version = book.commit(edit)?;
    Ok(Ok(version))
}

/// The book of the edits, from an empty one, and for each edit in order the version after it or why it is refused, as
/// `judge` and `Book::commit` answer them one after the other. A refused edit changes nothing. `NoMemory` for one of
/// them refuses all.
pub(crate) fn commit_all(
    alloc: Global,
    edits: Vec<Edit>,
) -> Result<(Book, Vec<Result<u64, Refusal>>), Refusal>
    ensures answers { IfOk result (λ loaded. loaded.1.items ≡ answers_to (full_at empty.version) empty edits.items) }
    ensures objects { IfOk result (λ loaded. loaded.0.objects ≡ objects_after (full_at empty.version) empty edits.items) }
    ensures pending { IfOk result (λ loaded. loaded.0.pending ≡ accepted_of (full_at empty.version) empty edits.items) }
    ensures closed { IfOk result (λ loaded. loaded.0.closed ≡ []) }
    ensures base { IfOk result (λ loaded. loaded.0.base ≡ empty) }
    ensures refusal { OnlyNoMemory result }
{
    let mut book = Book::new(alloc);
    let mut answers = Vec::with_capacity(alloc, edits.len())?;
    for edit in edits {
        let answer = commit_one(&mut book, edit)?;
        answers.push(answer)?;
    }
    Ok((book, answers))
}
