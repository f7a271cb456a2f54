//! Moments, lengths of time and the spans between them.
#![tactic(auto)]

mod length;
mod moment;
mod print;
mod span;

pub use length::{Length, length_laws, read_length};
pub use moment::{Moment, read_moment, read_start};
pub use print::print_moment;
pub use span::{End, Span, covers, end_of, meets};
