//! What a publication is told by.

/// The number of a publication, and the version that it shows.
#[derive(Clone, Copy, Debug, PartialEq, Eq)]
pub struct Published {
    /// How many publications there were before it; number 0 shows no objects.
    pub number: u64,
    /// How many edits had been accepted when it was made.
    pub version: u64,
}
