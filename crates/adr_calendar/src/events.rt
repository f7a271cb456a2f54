//! Events that are shown one after the other.
ghost use Rattle.std.specs.Prelude.{◌≡◌, Some};
ghost use Rattle.std.specs.Option.{option_copied, option_map, ForSome};
ghost use Rattle.adr_store.specs.Numbers.{by_number};
ghost use Rattle.adr_calendar.specs.Shown.{naming_text};

use crate::lines::put_naming;
use adr_object::Event;
use adr_store::Store;
use adr_value::Refusal;
use std::alloc::Global;

/// An event, and the number of the edit that wrote it.
#[derive(Clone, Copy)]
struct Found<'a> {
    written: u64,
    event: &'a Event,
}

/// The event that was found last, and how its lines name it: segments that follow each other are mostly of one event.
#[derive(Drop)]
pub(crate) struct LastEvent<'a> {
    objects: &'a Store,
    found: Option<Found<'a>>,
    text: Vec<u8>,
    ghost stored: { ForSome found (λ f. option_map (λ w. w.event) (by_number objects.now.events f.written) ≡ Some f.event.now) },
    ghost named: { ForSome found (λ f. text.items ≡ naming_text f.event.now.id) },
}

impl<'a> LastEvent<'a> {
    ghost use Rattle.std.specs.Prelude.{IfOk, IfSome};
    ghost use Rattle.adr_refusal.specs.Answer.{OnlyNoMemory};

    pub(crate) fn none(alloc: Global, objects: &'a Store) -> LastEvent<'a>
        ensures { result.objects.now ≡ objects.now }
    {
        LastEvent {
            objects,
            found: None,
            text: Vec::new(alloc),
        }
    }

    /// The event that the edit of that number wrote last, whose name is then at hand.
    pub(crate) fn turn_to(&mut self, written: u64) -> Result<Option<&'a Event>, Refusal>
        ensures objects { self.new.objects.now ≡ self.old.objects.now }
        ensures event { IfOk result (λ event. option_copied event ≡ option_map (λ w. w.event) (by_number self.old.objects.now.events written)) }
        ensures named { IfOk result (λ event. IfSome event (λ e. self.new.text.items ≡ naming_text e.now.id)) }
        ensures memory { OnlyNoMemory result }
    {
        if let Some(found) = self.found
            && found.written == written
        {
            return Ok(Some(found.event));
        }
        self.found = None;
        self.text.clear();
        let Some(event) = self.objects.event_by(written) else {
            return Ok(None);
        };
        put_naming(&mut self.text, &event.id)?;
        self.found = Some(Found { written, event });
        Ok(Some(event))
    }

    /// How the lines of the event name it.
    pub(crate) fn naming(&self) -> &[u8]
        ensures { result.now ≡ self.now.text.items }
    {
        self.text.as_slice()
    }
}
