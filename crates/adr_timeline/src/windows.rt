//! Windows in order.
ghost use Rattle.std.specs.Prelude.{◌≡◌, ◌+◌, ◌<◌, ◌≤◌, ℤ, IfOk, IsTrue, false, length, take};
ghost use Rattle.adr_timeline.specs.Windows.{all_last, any_covers, are_apart as is_each_apart, is_followed_by as is_followed};

use adr_time::Span;
use std::alloc::{AllocError, Global};

/// Whether the first of the windows does not start before the window ends.
fn is_followed_by(window: &Span, windows: &[Span]) -> bool
    ensures { result ≡ is_followed window.now windows.now }
{
    match windows.first() {
        Some(next) => !next.start.is_before(window.end),
        None => true,
    }
}

/// Whether the windows last and stand in order, and none starts before the one before it ends.
pub fn are_apart(windows: &[Span]) -> bool
    ensures { result ≡ is_each_apart windows.now }
{
    let mut windows = windows;
    while let Some((window, later)) = windows.split_first() {
        if !window.lasts() || !is_followed_by(window, later) {
            return false;
        }
        windows = later;
    }
    true
}

/// How many of the windows, from the first on, last and stand in order, each ending by the start of the next.
pub fn first_run(windows: &[Span]) -> usize
    ensures within { result ≤ length windows.now }
    ensures apart { IsTrue (is_each_apart (take result windows.now)) }
    ensures longest { result < length windows.now → is_each_apart (take (result + 1) windows.now) ≡ false }
    ensures some { IsTrue (all_last windows.now) → 0 < length windows.now → 0 < result }
{
    let mut count = 0;
    let mut rest = windows;
    while let Some((window, later)) = rest.split_first() {
        if !window.lasts() {
            return count;
        }
        count += 1;
        if !is_followed_by(window, later) {
            return count;
        }
        rest = later;
    }
    count
}

/// Windows that cover what the windows cover, one for those that touch. Cost: a look at each.
///
/// # Errors
///
/// `AllocError` where there is no room for them.
pub fn put_together(alloc: Global, windows: &[Span]) -> Result<Vec<Span>, AllocError>
    requires last { IsTrue (all_last windows.now) }
    ensures covers { IfOk result (λ wide. (t : ℤ) → any_covers wide.items t ≡ any_covers windows.now t) }
    ensures last { IfOk result (λ wide. IsTrue (all_last wide.items)) }
    ensures apart { IfOk result (λ wide. IsTrue (is_each_apart windows.now) → IsTrue (is_each_apart wide.items)) }
{
    let mut wide = Vec::new(alloc);
    let Some((first, others)) = windows.split_first() else {
        return Ok(wide);
    };
    let mut current = *first;
    let mut rest = others;
    'rest: while let Some((window, more)) = rest.split_first() {
        rest = more;
        if current.end.is_at(window.start) {
            current.end = window.end;
        } else {
            wide.push(current)?;
            current = *window;
        }
    }
    wide.push(current)?;
    Ok(wide)
}
