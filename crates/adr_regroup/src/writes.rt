//! The writes of the events that apply to the resource at a place.
ghost use Rattle.std.specs.Prelude.{◌<◌, length, IfOk};
ghost use Rattle.adr_refusal.specs.Answer.{OnlyNoMemory};
ghost use Rattle.adr_audience.specs.Keys.{AreKeysOf};
ghost use Rattle.adr_regroup.specs.Party.{AreWritesAt};

use crate::spot::writes_for;
use adr_audience::Audiences;
use adr_book::Book;
use adr_group::Writes;
use adr_value::Refusal;

/// The numbers of the writes of the events that apply to the resource at the place, by the keys of the book. Cost: that
/// of `Audiences::asked` and of `numbers_for`.
///
/// # Errors
///
/// `NoMemory` where there is no room for them.
pub fn writes_of(book: &Book, keys: &Audiences, place: usize) -> Result<Writes, Refusal>
    requires place { place < length book.now.objects.resources }
    requires keys { AreKeysOf book.now.objects keys.now }
    ensures writes { IfOk result (AreWritesAt book.now.objects place) }
    ensures refusal { OnlyNoMemory result }
{
    book.book_laws();
    let Some(resource) = book.resource_at(place) else {
        unreachable!();
    };
    let Some(ven) = book.ven(&resource.ven_id) else {
        unreachable!();
    };
    let asked = keys.asked(resource, ven)?;
    let writes = writes_for(book, keys, &asked, resource, ven)?;
    Ok(writes)
}
