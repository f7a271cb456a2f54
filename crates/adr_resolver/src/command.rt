//! What lines ask for.
use adr_object::{Edit, Id};
use adr_time::Moment;
use adr_value::PayloadType;

/// What a line of the script asks for.
#[derive(Drop)]
pub enum Command {
    /// An object is created, changed or removed.
    Edit(Edit),
    /// The objects as they are become the next publication, also where nothing is new.
    Publish,
    /// The last publication becomes the base of the journal.
    Condense,
    /// What governs a resource for a payload type at a moment.
    At(Id, PayloadType, Moment),
    /// What governs a resource for a payload type from a moment to before another.
    List(Id, PayloadType, Moment, Moment),
    /// What governs each resource for a payload type at a moment.
    Roll(PayloadType, Moment),
    /// The payload types that govern a resource at some time.
    Types(Id),
}
