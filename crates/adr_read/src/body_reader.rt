//! Bodies one after the other.
ghost use Rattle.adr_refusal.specs.Answer.{Answers};
ghost use Rattle.adr_read.specs.Body.{program_named, ven_named, resource_named, event_named};

use crate::read::{
    event_by, program_by, read_event, read_program, read_resource, read_ven, resource_by, ven_by,
};
use adr_object::{Event, Id, Program, Resource, Ven};
use adr_time::Moment;
use adr_value::Refusal;
use json::Scratch;
use std::alloc::Global;

/// The longest body whose memory is kept.
const MOST_KEPT: usize = 65_536;

/// Reads bodies one after the other, in memory that it may keep: 16 KiB, and as much as the longest body of up to
/// 65,536 bytes. A longer body takes memory of its own, which is given back.
pub struct BodyReader {
    kept: Option<Box<Scratch>>,
}

// A function of its own, so that callers that let a value go need not look into it.
impl Drop for BodyReader {
    fn drop(self) {
        let BodyReader { kept } = self;
        drop(kept);
    }
}

impl BodyReader {
    /// A reader that keeps no memory.
    pub fn new() -> BodyReader {
        BodyReader { kept: None }
    }

    /// A reader that keeps its memory, or none where there is no room for it.
    pub fn keeping(alloc: Global) -> BodyReader {
        BodyReader {
            kept: Box::new(alloc, Scratch::new(alloc)).ok(),
        }
    }

    /// What `read_program` answers, in the memory that is kept where the body is at most 65,536 bytes long.
    ///
    /// # Errors
    ///
    /// Those of `read_program`.
    pub fn program(
        &mut self,
        alloc: Global,
        body: &[u8],
        id: &Id,
        now: Moment,
    ) -> Result<Program, Refusal>
        ensures { Answers result (program_named body.now id.now) }
    {
        match &mut self.kept {
            Some(scratch) if body.len() <= MOST_KEPT => program_by(alloc, scratch, body, id, now),
            _ => read_program(alloc, body, id, now),
        }
    }

    /// What `read_event` answers, in the memory that is kept where the body is at most 65,536 bytes long.
    ///
    /// # Errors
    ///
    /// Those of `read_event`.
    pub fn event(
        &mut self,
        alloc: Global,
        body: &[u8],
        id: &Id,
        now: Moment,
    ) -> Result<Event, Refusal>
        ensures { Answers result (event_named now body.now id.now) }
    {
        match &mut self.kept {
            Some(scratch) if body.len() <= MOST_KEPT => event_by(alloc, scratch, body, id, now),
            _ => read_event(alloc, body, id, now),
        }
    }

    /// What `read_ven` answers, in the memory that is kept where the body is at most 65,536 bytes long.
    ///
    /// # Errors
    ///
    /// Those of `read_ven`.
    pub fn ven(&mut self, alloc: Global, body: &[u8], id: &Id, now: Moment) -> Result<Ven, Refusal>
        ensures { Answers result (ven_named body.now id.now) }
    {
        match &mut self.kept {
            Some(scratch) if body.len() <= MOST_KEPT => ven_by(alloc, scratch, body, id, now),
            _ => read_ven(alloc, body, id, now),
        }
    }

    /// What `read_resource` answers, in the memory that is kept where the body is at most 65,536 bytes long.
    ///
    /// # Errors
    ///
    /// Those of `read_resource`.
    pub fn resource(
        &mut self,
        alloc: Global,
        body: &[u8],
        id: &Id,
        now: Moment,
    ) -> Result<Resource, Refusal>
        ensures { Answers result (resource_named body.now id.now) }
    {
        match &mut self.kept {
            Some(scratch) if body.len() <= MOST_KEPT => resource_by(alloc, scratch, body, id, now),
            _ => read_resource(alloc, body, id, now),
        }
    }
}
