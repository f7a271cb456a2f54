//! Values as JSON.
ghost use Rattle.std.specs.Prelude.{◌≡◌, ◌++◌, OnOk, codes};
ghost use Rattle.std.specs.List.{flat_map};
ghost use Rattle.adr_refusal.specs.Answer.{OnlyNoMemory};
ghost use Rattle.adr_value.specs.Text.{number_text};
ghost use Rattle.adr_calendar.specs.Json.{json_array, json_elements, json_value};

use crate::printing::{put, put_datum, put_decimal};
use adr_value::{Datum, Decimal, Refusal};

fn put_point(out: &mut Vec<u8>, x: Decimal, y: Decimal) -> Result<(), Refusal>
    ensures ok { OnOk result (out.new.items ≡ out.old.items ++ (codes "{\"x\":" ++ number_text x ++ codes ",\"y\":" ++ number_text y ++ codes "}")) }
    ensures memory { OnlyNoMemory result }
{
    put(out, b"{\"x\":")?;
    put_decimal(out, x)?;
    put(out, b",\"y\":")?;
    put_decimal(out, y)?;
    put(out, b"}")
}

fn put_json_value(out: &mut Vec<u8>, datum: &Datum) -> Result<(), Refusal>
    ensures ok { OnOk result (out.new.items ≡ out.old.items ++ json_value datum.now) }
    ensures memory { OnlyNoMemory result }
{
    match datum {
        Datum::Point(x, y) => put_point(out, *x, *y),
        Datum::Number(_) | Datum::Text(_) | Datum::Truth(_) => put_datum(out, datum),
    }
}

fn put_next(out: &mut Vec<u8>, datum: &Datum) -> Result<(), Refusal>
    ensures ok { OnOk result (out.new.items ≡ out.old.items ++ (codes "," ++ json_value datum.now)) }
    ensures memory { OnlyNoMemory result }
{
    put(out, b",")?;
    put_json_value(out, datum)
}

/// Appends each value behind a comma.
fn put_more(out: &mut Vec<u8>, values: &[Datum]) -> Result<(), Refusal>
    ensures ok { OnOk result (out.new.items ≡ out.old.items ++ flat_map (λ v. codes "," ++ json_value v) values.now) }
    ensures memory { OnlyNoMemory result }
{
    for datum in values {
        put_next(out, datum)?;
    }
    Ok(())
}

fn put_elements(out: &mut Vec<u8>, values: &[Datum]) -> Result<(), Refusal>
    ensures ok { OnOk result (out.new.items ≡ out.old.items ++ json_elements values.now) }
    ensures memory { OnlyNoMemory result }
{
    match values {
        [first, rest @ ..] => {
            put_json_value(out, first)?;
            put_more(out, rest)
        }
        [] => Ok(()),
    }
}

/// Appends the values as a JSON array. A point is an object of its coordinates, as `{"x":1,"y":2.5}`.
///
/// # Errors
///
/// `NoMemory` where there is no room for it.
pub fn put_json_array(out: &mut Vec<u8>, values: &[Datum]) -> Result<(), Refusal>
    ensures ok { OnOk result (out.new.items ≡ out.old.items ++ json_array values.now) }
    ensures memory { OnlyNoMemory result }
{
    put(out, b"[")?;
    put_elements(out, values)?;
    put(out, b"]")
}
