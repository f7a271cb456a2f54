//! What targets are held against.
use adr_object::{Event, Program, Resource, Ven};

/// What a list of targets is held against: a resource with its ven, and an event with its program.
#[derive(Clone, Copy)]
pub struct Scene<'a> {
    /// The program that the event belongs to, whose targets must match too.
    pub program: &'a Program,
    /// The event that may apply to the resource.
    pub event: &'a Event,
    /// The ven that the resource belongs to.
    pub ven: &'a Ven,
    /// The resource that the event may apply to.
    pub resource: &'a Resource,
}
