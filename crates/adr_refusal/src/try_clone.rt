//! Copies that may be refused for want of memory.
ghost use Rattle.adr_refusal.specs.Copy.{IsCopyOf};

use crate::refusal::Refusal;

/// A value of which an equal one can be made, where there is memory for it.
///
/// It serves generic code, as `BoundedVec::copy`; elsewhere call the type's own `copy`.
pub trait TryClone: Drop {
    /// A value equal to this one.
    ///
    /// # Errors
    ///
    /// `NoMemory` where there is no room for it.
    fn try_clone(&self) -> Result<Self, Refusal>
        ensures { IsCopyOf result self.now };
}

impl<T: TryClone> TryClone for Option<T> {
    fn try_clone(&self) -> Result<Option<T>, Refusal> {
        match self {
            Some(value) => Ok(Some(value.try_clone()?)),
            None => Ok(None),
        }
    }
}

impl TryClone for u64 {
    fn try_clone(&self) -> Result<u64, Refusal> {
        Ok(*self)
    }
}
