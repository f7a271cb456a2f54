//! The names of members.
ghost use Rattle.std.specs.Prelude.{◌≡◌};
ghost use Rattle.adr_read.specs.Names.{member_text};

/// A member that bodies are read for (OpenADR 3.0 Definition: program, event, interval, intervalPeriod, valuesMap, ven,
/// resource, point).
#[derive(Clone, Copy, Drop)]
pub(crate) enum MemberName {
    ObjectType,
    Id,
    ProgramName,
    VenName,
    ResourceName,
    VenId,
    ProgramId,
    EventName,
    Priority,
    Targets,
    IntervalPeriod,
    Intervals,
    Start,
    Duration,
    RandomizeStart,
    Payloads,
    Kind,
    Values,
    X,
    Y,
}

impl MemberName {
    /// The name as bodies spell it.
    pub(crate) fn text(self) -> &'static str
        ensures { result.now ≡ member_text self }
    {
        match self {
            MemberName::ObjectType => "objectType",
            MemberName::Id => "id",
            MemberName::ProgramName => "programName",
            MemberName::VenName => "venName",
            MemberName::ResourceName => "resourceName",
            MemberName::VenId => "venID",
            MemberName::ProgramId => "programID",
            MemberName::EventName => "eventName",
            MemberName::Priority => "priority",
            MemberName::Targets => "targets",
            MemberName::IntervalPeriod => "intervalPeriod",
            MemberName::Intervals => "intervals",
            MemberName::Start => "start",
            MemberName::Duration => "duration",
            MemberName::RandomizeStart => "randomizeStart",
            MemberName::Payloads => "payloads",
            MemberName::Kind => "type",
            MemberName::Values => "values",
            MemberName::X => "x",
            MemberName::Y => "y",
        }
    }
}
