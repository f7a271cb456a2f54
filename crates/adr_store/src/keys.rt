//! The ids that objects are found by.
use crate::table::Keyed;
use adr_object::{Id, Program, Resource, Ven};
use adr_shared::Shared;

impl Keyed for Shared<Program> {
    ghost key = { λ p. p.id };

    fn id(&self) -> &Id {
        &self.get().id
    }
}

impl Keyed for Shared<Ven> {
    ghost key = { λ v. v.id };

    fn id(&self) -> &Id {
        &self.get().id
    }
}

impl Keyed for Shared<Resource> {
    ghost key = { λ r. r.id };

    fn id(&self) -> &Id {
        &self.get().id
    }
}
