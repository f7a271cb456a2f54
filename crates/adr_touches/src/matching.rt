//! The event that applies to a resource.
ghost use Rattle.std.specs.Prelude.{◌≡◌, false};
ghost use Rattle.std.specs.Option.{option_map, option_map_or};
ghost use Rattle.adr_model.specs.Book.{scene_of};
ghost use Rattle.adr_model.specs.Matching.{applies as applies_in};
ghost use Rattle.adr_model.specs.Touches.{applying};
ghost use Rattle.adr_touches.specs.Applied.{written_event};

use adr_book::Book;
use adr_object::{Event, Id, Resource};
use adr_rule::{Scene, applies};

/// An event that applies, and the number of the edit that wrote it.
#[derive(Clone, Copy)]
pub struct Applied<'a> {
    /// The event as it stands in the book.
    pub event: &'a Event,
    /// The version that the edit made which last wrote it; no other event of the book has it.
    pub written: u64,
}

/// Whether the event applies to the resource, by all targets of the event and its program against those of the
/// resource and its ven. It doesn't where the book has no such program or ven. Cost: two look-ups, and the targets.
pub fn is_applied(book: &Book, resource: &Resource, event: &Event) -> bool
    ensures { result ≡ option_map_or applies_in (scene_of book.now.objects event.now resource.now) false }
{
    let Some(program) = book.program(&event.program_id) else {
        return false;
    };
    let Some(ven) = book.ven(&resource.ven_id) else {
        return false;
    };
    applies(&Scene {
        program,
        event,
        ven,
        resource,
    })
}

/// The event, where both are there and it applies.
pub(crate) fn applied_event<'a>(book: &'a Book, resource: &Id, event: &Id) -> Option<Applied<'a>>
    ensures { option_map written_event result ≡ applying book.now.objects resource.now event.now }
{
    let resource = book.resource(resource)?;
    let written = book.written(event)?;
    let event = book.event(event)?;
    if !is_applied(book, resource, event) {
        return None;
    }
    Some(Applied { event, written })
}
