//! Why a call is refused.
ghost use Rattle.std.specs.Prelude.{◌≡◌, Some};
ghost use Rattle.adr_refusal.specs.Refusal.{number_of, name_of, of_number};
ghost use Rattle.adr_refusal.specs.declared.refusal.Refusal.{Refusal as AnyRefusal};

use std::alloc::{AllocError, AllocFailed};
use std::fmt;
use std::fmt::{Display, Formatter, Write};

/// Why a line, an edit or a call is refused.
///
/// Where several of 1 to 29 hold, the one of the least number is answered. 98 and 99 are no faults of the
/// input: the same call may do better later.
#[derive(Clone, Copy, Debug, PartialEq, Eq)]
pub enum Refusal {
    /// A line of more than 4,194,304 bytes, its line feed not counted.
    LongLine = 1,
    /// Not a line of the script.
    BadLine = 2,
    /// A moment word that is no instant.
    BadMoment = 3,
    /// An id word that is not 1 to 128 letters, digits, `_` and `-`.
    BadId = 4,
    /// A number of a body that is no JSON number, or has no exact decimal of 36 digits.
    BadNumber = 5,
    /// A body that is no JSON.
    BadJson = 6,
    /// A body that is no JSON object.
    NotObject = 7,
    /// An `objectType` that is not the line's kind.
    WrongKind = 8,
    /// An `id` that is not the line's id.
    IdMismatch = 9,
    /// A required member that is absent or null.
    Missing = 10,
    /// A member or element of another JSON kind.
    WrongType = 11,
    /// A text outside its length or characters.
    BadText = 12,
    /// A start that is no instant.
    BadDateTime = 13,
    /// A duration text that is no ISO 8601 duration.
    BadDuration = 14,
    /// A duration below zero.
    NegativeDuration = 15,
    /// A priority that is not whole, or not from 0 to 4,294,967,295.
    BadPriority = 16,
    /// Values that don't have the shape of their payload type.
    BadShape = 17,
    /// A list above its limit.
    TooMany = 18,
    /// The first interval has no start anywhere.
    NoStart = 19,
    /// An interval without its own period after an endless one.
    AfterEndless = 20,
    /// An end outside the range of instants.
    TimeRange = 21,
    /// A create of an id that is there.
    Exists = 22,
    /// A change or delete of an id that isn't there.
    NotThere = 23,
    /// An event that names no program that is there.
    NoProgram = 24,
    /// A resource that names no ven that is there.
    NoVen = 25,
    /// A delete of a program that an event names, or of a ven that a resource names.
    InUse = 26,
    /// A limit of the book, the journal, the publications or the queries.
    Full = 27,
    /// A window whose start is not before its end.
    BadWindow = 28,
    /// A resource that the snapshot does not have.
    UnknownResource = 29,
    /// Threads or readers that the runtime did not give, and a look at a board that is closed.
    NoRuntime = 98,
    /// A growth that was refused.
    NoMemory = 99,
}

impl Refusal {
    /// The number that a refusal is printed with: 1 to 29, 98 or 99.
    pub fn number(self) -> u8
        ensures { result ≡ number_of self }
    {
        self as u8
    }

    /// The name that is printed beside the number, as `BadText`.
    pub fn name(self) -> &'static str
        ensures { result.now ≡ name_of self }
    {
        match self {
            Refusal::LongLine => "LongLine",
            Refusal::BadLine => "BadLine",
            Refusal::BadMoment => "BadMoment",
            Refusal::BadId => "BadId",
            Refusal::BadNumber => "BadNumber",
            Refusal::BadJson => "BadJson",
            Refusal::NotObject => "NotObject",
            Refusal::WrongKind => "WrongKind",
            Refusal::IdMismatch => "IdMismatch",
            Refusal::Missing => "Missing",
            Refusal::WrongType => "WrongType",
            Refusal::BadText => "BadText",
            Refusal::BadDateTime => "BadDateTime",
            Refusal::BadDuration => "BadDuration",
            Refusal::NegativeDuration => "NegativeDuration",
            Refusal::BadPriority => "BadPriority",
            Refusal::BadShape => "BadShape",
            Refusal::TooMany => "TooMany",
            Refusal::NoStart => "NoStart",
            Refusal::AfterEndless => "AfterEndless",
            Refusal::TimeRange => "TimeRange",
            Refusal::Exists => "Exists",
            Refusal::NotThere => "NotThere",
            Refusal::NoProgram => "NoProgram",
            Refusal::NoVen => "NoVen",
            Refusal::InUse => "InUse",
            Refusal::Full => "Full",
            Refusal::BadWindow => "BadWindow",
            Refusal::UnknownResource => "UnknownResource",
            Refusal::NoRuntime => "NoRuntime",
            Refusal::NoMemory => "NoMemory",
        }
    }
}

impl Display for Refusal {
    ghost use Rattle.std.specs.Prelude.{Some, ◌++◌, codes, decimal};

    ghost output = { λ r. Some (decimal (number_of r) ++ codes " " ++ name_of r) };

    /// The number and the name, as `12 BadText`.
    fn fmt<W: Write>(&self, f: &mut Formatter<W>) -> fmt::Result {
        write!(f, "{} {}", self.number(), self.name())
    }
}

/// The law of the numbers: each gives back its refusal, so no two refusals have one.
pub fn refusal_laws()
    ensures { (r : AnyRefusal) → of_number (number_of r) ≡ Some r }
{}

impl From<AllocError> for Refusal {
    ghost use Rattle.std.specs.Prelude.{◌≡◌};
    ghost use Rattle.adr_refusal.specs.declared.refusal.Refusal.TheVariants.{NoMemory};

    ghost from_gives = { λ _ e. e ≡ NoMemory };

    fn from(_refused: AllocError) -> Refusal {
        Refusal::NoMemory
    }
}

impl<T: Drop> From<AllocFailed<T>> for Refusal {
    ghost use Rattle.std.specs.Prelude.{◌≡◌};
    ghost use Rattle.adr_refusal.specs.declared.refusal.Refusal.TheVariants.{NoMemory};

    ghost from_gives = { λ _ e. e ≡ NoMemory };

    fn from(_refused: AllocFailed<T>) -> Refusal {
        Refusal::NoMemory
    }
}
