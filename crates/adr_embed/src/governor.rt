//! What governs, in numbers.
use adr_time::End;

/// Where what governs comes from.
#[derive(Clone, Copy)]
pub struct GovernorSource {
    /// The interval's own id.
    pub interval: i64,
    /// How many of the answer's bytes are the event's id.
    pub event_len: usize,
    /// How many bytes behind it are the values as a JSON array.
    pub values_len: usize,
}

/// What governs a resource for a payload type at a moment, beside the bytes of the answer.
#[derive(Clone, Copy)]
pub struct Governor {
    /// None where nothing governs; then the answer has no bytes.
    pub source: Option<GovernorSource>,
    /// The next moment at which something else governs.
    pub until: End,
}
