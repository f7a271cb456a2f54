//! A snapshot as what answers are printed from.

use crate::snapshot::Snapshot;
use crate::snapshot::lines::{segments_of, state_of};
use crate::snapshot::types::types_of;
use adr_book::Book;
use adr_calendar::{Calendar, State};
use adr_model::Segment;
use adr_time::Moment;
use adr_value::{PayloadType, Refusal};

impl Calendar for Snapshot {
    ghost tie = { λ s. s.tie };

    ghost objects = { λ s. s.book.objects };

    fn book(&self) -> &Book {
        Snapshot::book(self)
    }

    fn state(
        &self,
        place: usize,
        payload_type: &PayloadType,
        moment: Moment,
    ) -> Result<State, Refusal> {
        let line = self.line(place, payload_type);
        Ok(state_of(line, moment))
    }

    fn segments(
        &self,
        place: usize,
        payload_type: &PayloadType,
        from: Moment,
        to: Moment,
    ) -> Result<Vec<Segment>, Refusal> {
        let line = self.line(place, payload_type);
        let segments = segments_of(self.allocator(), line, from, to)?;
        Ok(segments)
    }

    fn types(&self, place: usize) -> Result<Vec<PayloadType>, Refusal> {
        match self.group(place) {
            Some(group) => {
                group.line_laws();
                self.snapshot_laws();
                let types = types_of(self.allocator(), group)?;
                Ok(types)
            }
            None => Ok(Vec::new(self.allocator())),
        }
    }
}
