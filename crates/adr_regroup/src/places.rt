//! The places of the resources of a ven.
ghost use Rattle.std.specs.Prelude.{◌≡◌, true, length, is_some, IfOk, IsOk};
ghost use Rattle.adr_refusal.specs.Answer.{OnlyNoMemory};
ghost use Rattle.adr_model.specs.Book.{ven_by};
ghost use Rattle.adr_model.specs.Edits.{step};
ghost use Rattle.adr_audience.specs.Keys.{AreKeysOf};
ghost use Rattle.adr_regroup.specs.Party.{id_of_edit, AreOfVen};
ghost use Rattle.adr_regroup.specs.Kinds.{kind_of_edit};
ghost use Rattle.adr_object.specs.declared.object.Kind.TheVariants.{Ven as ven_kind};

use adr_audience::Audiences;
use adr_book::Book;
use adr_object::{Edit, Id};
use adr_value::Refusal;
use std::alloc::Global;

/// The places of the resources of the ven, in order.
fn places_of(book: &Book, keys: &Audiences, id: &Id) -> Result<Vec<usize>, Refusal>
    requires there { is_some (ven_by book.now.objects id.now) ≡ true }
    requires keys { AreKeysOf book.now.objects keys.now }
    ensures places { IfOk result (λ places. AreOfVen book.now.objects id.now (length book.now.objects.resources) places.items) }
    ensures refusal { OnlyNoMemory result }
{
    let Some(ven) = book.ven(id) else {
        unreachable!();
    };
    let places = keys.places_of_ven(book.objects(), ven)?;
    Ok(places)
}

/// The places of the resources of the ven that the accepted edit is of. One that comes or goes has none.
pub(crate) fn places_for(
    alloc: Global,
    book: &Book,
    keys: &Audiences,
    edit: &Edit,
) -> Result<Vec<usize>, Refusal>
    requires ven { kind_of_edit edit.now ≡ ven_kind }
    requires keys { AreKeysOf book.now.objects keys.now }
    requires accepted { IsOk (step book.now.objects edit.now) }
    ensures places { IfOk result (λ places. AreOfVen book.now.objects (id_of_edit edit.now) (length book.now.objects.resources) places.items) }
    ensures refusal { OnlyNoMemory result }
{
    book.book_laws();
    match edit {
        Edit::Create(_) => Ok(Vec::new(alloc)),
        Edit::Change(object) => {
            let places = places_of(book, keys, object.id())?;
            Ok(places)
        }
        Edit::Remove(_, _) => Ok(Vec::new(alloc)),
    }
}
