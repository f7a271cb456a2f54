//! Which event goes and which comes.
use adr_lines::TypeEntries;

/// An event as it was written: the number of the edit that wrote it, and its entries under each of its payload types.
pub struct Side {
    /// Which edit wrote it: among the writes of a group it goes by this number.
    pub written: u64,
    /// When its intervals hold, for each of its payload types.
    pub entries: Vec<TypeEntries>,
}

// A function of its own, so that callers that let a value go need not look into it.
impl Drop for Side {
    fn drop(self) {
        let Side {
            written: _,
            entries,
        } = self;
        drop(entries);
    }
}

/// The event that goes and the one that comes, for the resources to which they apply.
pub struct Change {
    /// The event as it was; None where none was there before.
    pub gone: Option<Side>,
    /// The event as it will be; None where it is removed.
    pub come: Option<Side>,
}

// A function of its own, so that callers that let a value go need not look into it.
impl Drop for Change {
    fn drop(self) {
        let Change { gone, come } = self;
        drop(gone);
        drop(come);
    }
}
