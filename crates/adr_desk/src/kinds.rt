//! What an edit is of.
ghost use Rattle.std.specs.Prelude.{◌≡◌};
ghost use Rattle.adr_regroup.specs.Kinds.{kind_of_edit};

use adr_object::{Edit, Kind};

/// The kind of the object that an edit creates, changes or removes.
pub(crate) fn kind_of(edit: &Edit) -> Kind
    ensures { result ≡ kind_of_edit edit.now }
{
    match edit {
        Edit::Create(object) | Edit::Change(object) => object.kind(),
        Edit::Remove(kind, _) => *kind,
    }
}
