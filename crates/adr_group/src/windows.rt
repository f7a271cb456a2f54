//! The spans of windows.
ghost use Rattle.std.specs.Prelude.{◌≡◌, ◌≤◌, ℕ, ℤ, List, true, IfOk, IsTrue};
ghost use Rattle.adr_refusal.specs.Answer.{OnlyNoMemory};
ghost use Rattle.adr_model.specs.declared.entry.Entry.{Entry as AnyEntry};
ghost use Rattle.adr_timeline.specs.Build.{most_compared_all};
ghost use Rattle.adr_timeline.specs.Windows.{all_last, any_covers};
ghost use Rattle.adr_lines.specs.Grouped.{any_covers_at};
ghost use Rattle.adr_lines.specs.Right.{written_in};
ghost use Rattle.adr_group.specs.Repair.{most_inside};

use adr_model::Entry;
use adr_time::Span;
use adr_value::Refusal;
use std::alloc::Global;

/// Whether the window has the same span as the other.
fn has_same_span(window: &Entry, other: &Entry) -> bool
    ensures { IsTrue result → window.now.span ≡ other.now.span }
{
    window.span == other.span
}

/// Whether the windows have the same spans as the others, each at the same place.
fn have_same_spans(windows: &[Entry], others: &[Entry]) -> bool
    ensures { result ≡ true → (t : ℤ) → any_covers_at windows.now t ≡ any_covers_at others.now t }
{
    let mut left = windows;
    let mut right = others;
    'rest: while let Some((window, more)) = left.split_first() {
        let Some((other, others_more)) = right.split_first() else {
            return false;
        };
        if !has_same_span(window, other) {
            return false;
        }
        left = more;
        right = others_more;
    }
    right.is_empty()
}

/// The windows, or the first half of them where the second has the same spans: those of an event that stays where it
/// was come twice.
fn once(windows: &[Entry]) -> &[Entry]
    ensures covers { (t : ℤ) → any_covers_at result.now t ≡ any_covers_at windows.now t }
    ensures cost { (writes : List ℕ) (entries : List AnyEntry) → most_inside writes entries result.now ≤ most_inside writes entries windows.now }
{
    let (front, back) = windows.split_at(windows.len() / 2);
    if have_same_spans(front, back) {
        front
    } else {
        windows
    }
}

/// The spans of the windows that last some time.
fn lasting_spans(alloc: Global, windows: &[Entry]) -> Result<Vec<Span>, Refusal>
    ensures covers { IfOk result (λ spans. (t : ℤ) → any_covers spans.items t ≡ any_covers_at windows.now t) }
    ensures last { IfOk result (λ spans. IsTrue (all_last spans.items)) }
    ensures cost { IfOk result (λ spans. (writes : List ℕ) (entries : List AnyEntry) → most_compared_all (written_in writes entries) spans.items ≤ most_inside writes entries windows.now) }
    ensures memory { OnlyNoMemory result }
{
    let mut spans = Vec::with_capacity(alloc, windows.len())?;
    let mut rest = windows;
    'rest: while let Some((window, more)) = rest.split_first() {
        if window.span.lasts() {
            spans.push(window.span)?;
        }
        rest = more;
    }
    Ok(spans)
}

/// The spans of the windows that last some time, each once where all windows come twice. `NoMemory` where there is no
/// room for them.
pub(crate) fn spans_of(alloc: Global, windows: &[Entry]) -> Result<Vec<Span>, Refusal>
    ensures covers { IfOk result (λ spans. (t : ℤ) → any_covers spans.items t ≡ any_covers_at windows.now t) }
    ensures last { IfOk result (λ spans. IsTrue (all_last spans.items)) }
    ensures cost { IfOk result (λ spans. (writes : List ℕ) (entries : List AnyEntry) → most_compared_all (written_in writes entries) spans.items ≤ most_inside writes entries windows.now) }
    ensures memory { OnlyNoMemory result }
{
    let spans = lasting_spans(alloc, once(windows))?;
    Ok(spans)
}
