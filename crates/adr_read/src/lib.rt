//! Objects from JSON bodies: the object that a body spells, or the least of its faults.
#![tactic(auto)]

mod body;
mod body_reader;
mod elements;
mod event;
mod from_value;
mod lists;
mod members;
mod name;
mod object;
mod period;
mod read;
mod skip;
mod text;
mod tokens;
mod values;

pub use body_reader::BodyReader;
pub use read::{limit_laws, read_event, read_program, read_resource, read_ven};
