//! Timelines by payload type.
ghost use Rattle.std.specs.Prelude.{◌≡◌, ◌≢◌, ◌==◌, ℤ, [], None, length, option_map, slice_get, IfOk, IfSome, if◌then◌else◌};
ghost use Rattle.std.specs.Option.{option_copied, option_map_or};
ghost use Rattle.adr_refusal.specs.Answer.{OnlyNoMemory};
ghost use Rattle.adr_refusal.specs.Copy.{IsCopyOf};
ghost use Rattle.adr_value.specs.Payload.{name_of};
ghost use Rattle.adr_value.specs.Same.{same_type};
ghost use Rattle.adr_value.specs.declared.payload.PayloadType.{PayloadType as AnyType};
ghost use Rattle.adr_shared.specs.Map.{lookup, IsAscending};
ghost use Rattle.adr_model.specs.Timeline.{shows, IsCanonical};
ghost use Rattle.adr_group.specs.Group.{shown_in, AllShow};

use crate::type_name::{TypeName, place_of};
use adr_shared::{Shared, SharedMap};
use adr_timeline::Timeline;
use adr_value::{PayloadType, Refusal};
use std::alloc::Global;
use std::marker::Model;

/// A timeline for each payload type of which something governs at some instant. Copies share them.
pub(crate) struct Timelines {
    by_type: SharedMap<TypeName, Shared<Timeline>>,
}

// A function of its own, so that callers that let a value go need not look into it.
impl Drop for Timelines {
    fn drop(self) {
        let Timelines { by_type } = self;
        drop(by_type);
    }
}

impl Model for Timelines {
    ghost use Rattle.std.specs.Prelude.{List, ℕ};
    ghost use Rattle.adr_model.specs.declared.timeline.Segment.{Segment};
    ghost use Rattle.adr_group.specs.Group.{AllShow};

    ghost Value = { List (List ℕ × List Segment) };

    ghost view = { λ t. t.by_type };

    ghost invariant = { λ t. AllShow t.by_type };
}

/// Whether the timeline shows nothing.
fn is_empty(timeline: &Timeline) -> bool
    ensures { result ≡ (length timeline.now == 0) }
{
    match timeline.segments().split_first() {
        Some((chunk, _)) => chunk.segments().is_empty(),
        None => true,
    }
}

impl Timelines {
    /// No timelines.
    pub(crate) fn new() -> Timelines
        ensures { result ≡ [] }
    {
        Timelines {
            by_type: SharedMap::new(),
        }
    }

    /// How many there are.
    pub(crate) fn len(&self) -> usize
        ensures { result ≡ length self.now }
    {
        self.by_type.len()
    }

    /// The laws of the lines: each shows something, and each type has one at most.
    pub(crate) fn line_laws(&self)
        ensures show { AllShow self.now }
        ensures order { IsAscending self.now }
    {
        self.by_type.map_laws();
    }

    /// The timeline of the type.
    fn find(&self, payload_type: &PayloadType) -> Option<&Timeline>
        ensures found { option_copied result ≡ lookup (name_of payload_type.now) self.now }
        ensures lasts { IfSome result (λ l. l.now ≢ []) }
    {
        let place = place_of(&self.by_type, payload_type)?;
        match self.by_type.at(place) {
            Some(line) => Some(line.get()),
            None => None,
        }
    }

    /// The timeline of the type, which is not empty; None where nothing of the type governs at any instant.
    pub(crate) fn timeline(&self, payload_type: &PayloadType) -> Option<&Timeline>
        ensures shows { (t : ℤ) → option_map_or (λ l. shows l t) (option_copied result) None ≡ shown_in self.now payload_type.now t }
        ensures canonical { IfSome result (λ l. IsCanonical l.now) }
        ensures lasts { IfSome result (λ l. l.now ≢ []) }
    {
        match self.find(payload_type) {
            Some(line) => {
                let _segments = line.segments();
                Some(line)
            }
            None => None,
        }
    }

    /// The type and the timeline at a place, from 0, in the order of the types' names.
    pub(crate) fn at(&self, place: usize) -> Option<(&PayloadType, &Timeline)>
        ensures { option_map (λ l. (name_of l.0.now, l.1.now)) result ≡ slice_get self.now place }
    {
        match (self.by_type.key_at(place), self.by_type.at(place)) {
            (Some(name), Some(line)) => Some((&name.payload_type, line.get())),
            _ => None,
        }
    }

    /// These timelines with this one as that of the type, or with none where it shows nothing; the others are shared.
    /// `NoMemory` as `SharedMap::put`.
    pub(crate) fn with(
        &self,
        alloc: Global,
        payload_type: &PayloadType,
        timeline: Timeline,
    ) -> Result<Timelines, Refusal>
        ensures shown { IfOk result (λ timelines. (k : AnyType) (t : ℤ) → shown_in timelines k t ≡ (if same_type payload_type.now k then shows timeline t else shown_in self.now k t)) }
        ensures memory { OnlyNoMemory result }
    {
        let name = TypeName::of(payload_type)?;
        if is_empty(&timeline) {
            let by_type = self.by_type.without(alloc, &name)?;
            return Ok(Timelines { by_type });
        }
        let line = Shared::new(alloc, timeline)?;
        let by_type = self.by_type.put(alloc, name, line)?;
        Ok(Timelines { by_type })
    }

    /// A copy that shares the timelines, whatever their number. `NoMemory` as `SharedMap::copy`.
    pub(crate) fn copy(&self) -> Result<Timelines, Refusal>
        ensures { IsCopyOf result self.now }
    {
        Ok(Timelines {
            by_type: self.by_type.copy()?,
        })
    }
}
