//! Where an edit may change what governs.
use adr_object::Id;
use adr_time::Span;
use adr_value::PayloadType;

/// A stretch of time in which an edit may have changed what governs a resource and a payload type.
pub struct Touch {
    /// Which resource it is about.
    pub resource: Id,
    /// For which payload type something else may govern.
    pub kind: PayloadType,
    /// The span of an interval that went or came, which covers some moment.
    pub window: Span,
}

// A function of its own, so that callers that let a value go need not look into it.
impl Drop for Touch {
    fn drop(self) {
        let Touch {
            resource,
            kind,
            window: _,
        } = self;
        drop(resource);
        drop(kind);
    }
}
