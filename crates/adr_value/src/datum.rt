//! Single values, and whether a payload's values have the shape of its type.
ghost use Rattle.std.specs.Prelude.{◌≡◌, ◌↔◌, IsTrue, Ok, Err, if◌then◌else◌};
ghost use Rattle.std.specs.List.{list_all};
ghost use Rattle.adr_refusal.specs.Copy.{IsCopyOf};
ghost use Rattle.adr_value.specs.Same.{same_datum};
ghost use Rattle.adr_value.specs.Shapes.{is_number, is_note, is_point, starts_whole, has_shape};
ghost use Rattle.adr_value.specs.Payload.{shape_of};

use crate::decimal::Decimal;
use crate::payload::{PayloadType, Shape};
use crate::text::Text;
use adr_refusal::{Refusal, TryClone};

/// One value of a payload or a target.
#[derive(Debug)]
pub enum Datum {
    /// A number, by its exact value.
    Number(Decimal),
    /// A text, perhaps empty.
    Text(Text),
    /// A truth value.
    Truth(bool),
    /// A point of a curve: x, then y.
    Point(Decimal, Decimal),
}

// A function of its own, so that callers that let a value go need not look into it.
impl Drop for Datum {
    fn drop(self) {
        match self {
            Datum::Number(_) | Datum::Truth(_) | Datum::Point(_, _) => {},
            Datum::Text(text) => drop(text),
        }
    }
}

impl Datum {
    /// Whether two values are equal: numbers as decimals, texts as characters, points by both numbers. Values of
    /// two cases never are.
    pub fn same(&self, other: &Datum) -> bool
        ensures value { result ≡ same_datum self.now other.now }
        ensures meaning { IsTrue result ↔ (self.now ≡ other.now) }
    {
        match (self, other) {
            (Datum::Number(a), Datum::Number(b)) => a == b,
            (Datum::Text(a), Datum::Text(b)) => a.as_str() == b.as_str(),
            (Datum::Truth(a), Datum::Truth(b)) => a == b,
            (Datum::Point(ax, ay), Datum::Point(bx, by)) => ax == bx && ay == by,
            _ => false,
        }
    }

    /// A value equal to this one, which takes no growth, as `Text::copy`.
    ///
    /// # Errors
    ///
    /// `NoMemory` only for a text, where the count of its sharers is full.
    pub fn copy(&self) -> Result<Datum, Refusal>
        ensures { IsCopyOf result self.now }
    {
        match self {
            Datum::Number(number) => Ok(Datum::Number(*number)),
            Datum::Text(text) => Ok(Datum::Text(text.copy()?)),
            Datum::Truth(truth) => Ok(Datum::Truth(*truth)),
            Datum::Point(x, y) => Ok(Datum::Point(*x, *y)),
        }
    }
}

impl TryClone for Datum {
    fn try_clone(&self) -> Result<Datum, Refusal> {
        self.copy()
    }
}

fn is_number(datum: &Datum) -> bool
    ensures { result ≡ is_number datum.now }
{
    matches!(datum, Datum::Number(_))
}

fn is_note(datum: &Datum) -> bool
    ensures { result ≡ is_note datum.now }
{
    matches!(datum, Datum::Text(_))
}

fn is_point(datum: &Datum) -> bool
    ensures { result ≡ is_point datum.now }
{
    matches!(datum, Datum::Point(_, _))
}

fn starts_whole(values: &[Datum]) -> bool
    ensures { result ≡ starts_whole values.now }
{
    match values {
        [Datum::Number(first), ..] => first.scale() == 0 && 0 <= first.coefficient(),
        _ => false,
    }
}

fn all_numbers(values: &[Datum]) -> bool
    ensures { result ≡ list_all is_number values.now }
{
    values.iter().all(is_number)
}

fn all_notes(values: &[Datum]) -> bool
    ensures { result ≡ list_all is_note values.now }
{
    values.iter().all(is_note)
}

fn all_points(values: &[Datum]) -> bool
    ensures { result ≡ list_all is_point values.now }
{
    values.iter().all(is_point)
}

impl Shape {
    /// Whether values have this shape. One pass over them.
    pub fn fits(self, values: &[Datum]) -> bool
        ensures { result ≡ has_shape self values.now }
    {
        match self {
            Shape::Whole => starts_whole(values),
            Shape::Amount => !values.is_empty() && all_numbers(values),
            Shape::Points => !values.is_empty() && all_points(values),
            Shape::Notes => all_notes(values),
            Shape::Any => true,
        }
    }
}

impl PayloadType {
    /// Judges the values of a payload of this type.
    ///
    /// # Errors
    ///
    /// `BadShape` where the values don't have the shape of the type.
    pub fn check(&self, values: &[Datum]) -> Result<(), Refusal>
        ensures { result ≡ (if has_shape (shape_of self.now) values.now then Ok tt else Err Refusal.BadShape) }
    {
        if self.shape().fits(values) {
            Ok(())
        } else {
            Err(Refusal::BadShape)
        }
    }
}
