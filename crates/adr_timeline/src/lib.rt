#![tactic(auto)]
//! Timelines: which interval governs at each instant, as a list of segments that is canonical at all times.

mod build;
mod chunk;
mod line;
mod list;
mod near;
mod overlay;
mod packed;
mod part;
mod search;
mod segment;
mod step;
mod timeline;
mod windows;

pub use adr_model::{Entry, Segment, Winner};
pub use build::Source;
pub use chunk::Chunk;
pub use overlay::Ranks;
pub use packed::PackedSegment;
pub use step::is_run;
pub use timeline::{Timeline, timeline_laws};
pub use windows::{are_apart, first_run, put_together};
