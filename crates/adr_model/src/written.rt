//! An event with the number of the edit that wrote it last.
use adr_object::Event;

/// An event, and the number of the accepted edit that last wrote it.
pub struct Written {
    /// The event as that edit left it.
    pub event: Event,
    /// The version that the edit made, at least 1; no two events of a book have one number.
    pub written: u64,
}

// A function of its own, so that callers that let a value go need not look into it.
impl Drop for Written {
    fn drop(self) {
        let Written { event, written: _ } = self;
        drop(event);
    }
}
