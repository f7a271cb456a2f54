//! Of which writes a search keeps the entries.
ghost use Rattle.std.specs.Prelude.{◌≡◌};

use crate::query::IndexQuery;

/// Writes of which a search keeps the entries.
pub trait Wanted {
    ghost use Rattle.std.specs.Prelude.{◌≡◌, ℕ, Bool};

    /// Whether the write of that number is one of them.
    ghost is_wanted: { Self → ℕ → Bool };

    /// Whether the write of that number is one of them.
    fn wants(&self, written: u64) -> bool
        ensures { result ≡ is_wanted self.now written };
}

/// All writes.
pub(crate) struct Every;

impl Wanted for Every {
    ghost use Rattle.std.specs.Prelude.{true};

    ghost is_wanted = { λ _ _. true };

    fn wants(&self, _written: u64) -> bool {
        true
    }
}

/// What entries are asked for, and of which writes.
#[derive(Clone, Copy)]
pub(crate) struct Search<'a, W: Wanted> {
    pub(crate) query: IndexQuery,
    pub(crate) wanted: &'a W,
}
