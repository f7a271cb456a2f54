//! The bytes of numbers, texts, values and ends.
ghost use Rattle.std.specs.Prelude.{◌≡◌, ◌++◌, ◌<◌, ◌≤◌, ◌^◌, ◌/◌, ◌%◌, ℕ, OnOk, codes, drop, length, replicate};
ghost use Rattle.std.specs.Fmt.{decimal, sign_text, signed_decimal};
ghost use Rattle.std.specs.List.{flat_map};
ghost use Rattle.adr_refusal.specs.Answer.{OnlyNoMemory};
ghost use Rattle.adr_value.specs.Text.{fraction_text, number_text, places_text};
ghost use Rattle.adr_model.specs.Answer.{hex_digit, quoted_byte, quoted, datum_text, values_text, end_text};

use adr_time::{End, print_moment};
use adr_value::{Datum, Decimal, Refusal};
use itoa::{Buffer, write_digits};

/// Room for the digits of two numbers of 64 bits and a point.
const ROOM: usize = 48;

/// Appends bytes as they are.
///
/// # Errors
///
/// `NoMemory` where there is no room for them.
pub fn put(out: &mut Vec<u8>, text: &[u8]) -> Result<(), Refusal>
    ensures ok { OnOk result (out.new.items ≡ out.old.items ++ text.now) }
    ensures memory { OnlyNoMemory result }
{
    out.extend_from_slice(text)?;
    Ok(())
}

/// Appends so many zeros.
fn put_zeros(out: &mut Vec<u8>, count: usize) -> Result<(), Refusal>
    ensures ok { OnOk result (out.new.items ≡ out.old.items ++ replicate count 48) }
    ensures memory { OnlyNoMemory result }
{
    for _place in 0..count {
        out.push(b'0')?;
    }
    Ok(())
}

/// The digits of a number: one of 64 bits takes a shorter way.
fn digits_of(buffer: &mut Buffer, number: u128) -> &[u8]
    ensures { result.now ≡ decimal number }
{
    match u64::try_from(number) {
        Ok(number) => buffer.format(number).as_bytes(),
        Err(_) => buffer.format(number).as_bytes(),
    }
}

/// Appends a number in so many digits, with zeros before it.
fn put_places(out: &mut Vec<u8>, places: u8, value: u128) -> Result<(), Refusal>
    ensures ok { OnOk result (out.new.items ≡ out.old.items ++ places_text places value) }
    ensures memory { OnlyNoMemory result }
{
    let mut buffer = Buffer::new();
    let digits = digits_of(&mut buffer, value);
    put_zeros(out, usize::from(places).saturating_sub(digits.len()))?;
    put(out, digits)
}

/// Appends the point and the digits after it, if there are any.
fn put_fraction(out: &mut Vec<u8>, places: u8, rest: u128) -> Result<(), Refusal>
    requires places { places ≤ 36 }
    ensures ok { OnOk result ((size : ℕ) → rest ≡ size % 10 ^ places → out.new.items ≡ out.old.items ++ fraction_text places size) }
    ensures memory { OnlyNoMemory result }
{
    if places == 0 {
        return Ok(());
    }
    put(out, b".")?;
    put_places(out, places, rest)
}

/// Appends a minus sign, if there is to be one.
fn put_sign(out: &mut Vec<u8>, is_negative: bool) -> Result<(), Refusal>
    ensures ok { OnOk result (out.new.items ≡ out.old.items ++ sign_text is_negative) }
    ensures memory { OnlyNoMemory result }
{
    if is_negative { put(out, b"-") } else { Ok(()) }
}

/// Writes a point and that many digits at the end of a text of zeros, and answers where they begin.
fn write_places(text: &mut [u8], places: u8, rest: u64) -> usize
    requires zeros { text.old ≡ replicate 48 48 }
    requires some { 0 < places }
    requires places { places ≤ 19 }
    requires rest { rest < 10 ^ places }
    ensures room { 28 ≤ result }
    ensures within { result ≤ 48 }
    ensures length { length text.new ≡ 48 }
    ensures written { drop result text.new ≡ codes "." ++ places_text places rest }
{
    let _digits = write_digits(rest, text, ROOM);
    let point = ROOM - 1 - places as usize;
    text[point] = b'.';
    point
}

/// Writes the point and the digits after it, if there are any, and answers where they begin.
fn write_fraction(text: &mut [u8], places: u8, rest: u64) -> usize
    requires zeros { text.old ≡ replicate 48 48 }
    requires places { places ≤ 19 }
    requires rest { rest < 10 ^ places }
    ensures room { 28 ≤ result }
    ensures within { result ≤ 48 }
    ensures length { length text.new ≡ 48 }
    ensures written { (size : ℕ) → rest ≡ size % 10 ^ places → drop result text.new ≡ fraction_text places size }
{
    if places == 0 {
        return ROOM;
    }
    write_places(text, places, rest)
}

/// Appends a number of a size of 64 bits and few places.
fn put_short(out: &mut Vec<u8>, size: u64, places: u8) -> Result<(), Refusal>
    requires { places ≤ 19 }
    ensures ok { OnOk result (out.new.items ≡ out.old.items ++ (decimal (size / 10 ^ places) ++ fraction_text places size)) }
    ensures memory { OnlyNoMemory result }
{
    let mut text = [b'0'; ROOM];
    let power = 10u64.pow(places as u32);
    let point = write_fraction(&mut text, places, size % power);
    let start = write_digits(size / power, &mut text, point);
    put(out, &text[start..])
}

/// Appends a number that `put_short` doesn't take.
fn put_long(out: &mut Vec<u8>, size: u128, places: u8) -> Result<(), Refusal>
    requires { places ≤ 36 }
    ensures ok { OnOk result (out.new.items ≡ out.old.items ++ (decimal (size / 10 ^ places) ++ fraction_text places size)) }
    ensures memory { OnlyNoMemory result }
{
    let power = power_of_ten(places);
    put_natural(out, size / power)?;
    put_fraction(out, places, size % power)
}

/// Appends a number.
pub(crate) fn put_decimal(out: &mut Vec<u8>, number: Decimal) -> Result<(), Refusal>
    ensures ok { OnOk result (out.new.items ≡ out.old.items ++ number_text number) }
    ensures memory { OnlyNoMemory result }
{
    let size = number.coefficient().unsigned_abs();
    let places = number.scale();
    put_sign(out, number.coefficient() < 0)?;
    match u64::try_from(size) {
        Ok(size) if places < 20 => put_short(out, size, places),
        _ => put_long(out, size, places),
    }
}

// 10 to the power of `places`.
fn power_of_ten(places: u8) -> u128
    requires { places ≤ 36 }
    ensures value { result ≡ 10 ^ places }
    ensures positive { 0 < result }
{
    10u128.pow(places as u32)
}

/// Appends a whole number that is not below zero.
pub(crate) fn put_natural(out: &mut Vec<u8>, number: u128) -> Result<(), Refusal>
    ensures ok { OnOk result (out.new.items ≡ out.old.items ++ decimal number) }
    ensures memory { OnlyNoMemory result }
{
    let mut buffer = Buffer::new();
    put(out, digits_of(&mut buffer, number))
}

/// Appends the id of an interval.
pub(crate) fn put_id(out: &mut Vec<u8>, id: i64) -> Result<(), Refusal>
    ensures ok { OnOk result (out.new.items ≡ out.old.items ++ signed_decimal id) }
    ensures memory { OnlyNoMemory result }
{
    let mut buffer = Buffer::new();
    put(out, buffer.format(id).as_bytes())
}

fn hex_byte(digit: u8) -> u8
    requires { digit < 16 }
    ensures { result ≡ hex_digit digit }
{
    if digit < 10 {
        b'0' + digit
    } else {
        b'a' - 10 + digit
    }
}

fn put_quoted_byte(out: &mut Vec<u8>, byte: u8) -> Result<(), Refusal>
    ensures ok { OnOk result (out.new.items ≡ out.old.items ++ quoted_byte byte) }
    ensures memory { OnlyNoMemory result }
{
    if byte == b'"' || byte == b'\\' {
        return put(out, &[b'\\', byte]);
    }
    if byte < 32 {
        put(out, b"\\u00")?;
        return put(out, &[hex_byte(byte / 16), hex_byte(byte % 16)]);
    }
    put(out, &[byte])
}

fn put_quoted_bytes(out: &mut Vec<u8>, bytes: &[u8]) -> Result<(), Refusal>
    ensures ok { OnOk result (out.new.items ≡ out.old.items ++ flat_map quoted_byte bytes.now) }
    ensures memory { OnlyNoMemory result }
{
    for byte in bytes {
        put_quoted_byte(out, *byte)?;
    }
    Ok(())
}

/// Appends a text in quotes.
pub(crate) fn put_quoted(out: &mut Vec<u8>, text: &str) -> Result<(), Refusal>
    ensures ok { OnOk result (out.new.items ≡ out.old.items ++ quoted text.now) }
    ensures memory { OnlyNoMemory result }
{
    put(out, b"\"")?;
    put_quoted_bytes(out, text.as_bytes())?;
    put(out, b"\"")
}

fn put_point(out: &mut Vec<u8>, x: Decimal, y: Decimal) -> Result<(), Refusal>
    ensures ok { OnOk result (out.new.items ≡ out.old.items ++ (codes "(" ++ number_text x ++ codes "," ++ number_text y ++ codes ")")) }
    ensures memory { OnlyNoMemory result }
{
    put(out, b"(")?;
    put_decimal(out, x)?;
    put(out, b",")?;
    put_decimal(out, y)?;
    put(out, b")")
}

/// Appends a value.
pub(crate) fn put_datum(out: &mut Vec<u8>, datum: &Datum) -> Result<(), Refusal>
    ensures ok { OnOk result (out.new.items ≡ out.old.items ++ datum_text datum.now) }
    ensures memory { OnlyNoMemory result }
{
    match datum {
        Datum::Number(number) => put_decimal(out, *number),
        Datum::Text(text) => put_quoted(out, text.as_str()),
        Datum::Truth(true) => put(out, b"true"),
        Datum::Truth(false) => put(out, b"false"),
        Datum::Point(x, y) => put_point(out, *x, *y),
    }
}

fn put_spaced(out: &mut Vec<u8>, datum: &Datum) -> Result<(), Refusal>
    ensures ok { OnOk result (out.new.items ≡ out.old.items ++ (codes " " ++ datum_text datum.now)) }
    ensures memory { OnlyNoMemory result }
{
    put(out, b" ")?;
    put_datum(out, datum)
}

fn put_data(out: &mut Vec<u8>, values: &[Datum]) -> Result<(), Refusal>
    ensures ok { OnOk result (out.new.items ≡ out.old.items ++ flat_map (λ v. codes " " ++ datum_text v) values.now) }
    ensures memory { OnlyNoMemory result }
{
    for datum in values {
        put_spaced(out, datum)?;
    }
    Ok(())
}

/// Appends ` values`, and each value behind a space.
pub(crate) fn put_values(out: &mut Vec<u8>, values: &[Datum]) -> Result<(), Refusal>
    ensures ok { OnOk result (out.new.items ≡ out.old.items ++ (codes " " ++ values_text values.now)) }
    ensures memory { OnlyNoMemory result }
{
    match values {
        [first, rest @ ..] => {
            put(out, b" values ")?;
            put_datum(out, first)?;
            put_data(out, rest)
        }
        [] => put(out, b" values"),
    }
}

/// Appends a moment, or `end`.
pub(crate) fn put_end(out: &mut Vec<u8>, end: End) -> Result<(), Refusal>
    ensures ok { OnOk result (out.new.items ≡ out.old.items ++ end_text end) }
    ensures memory { OnlyNoMemory result }
{
    match end {
        End::At(moment) => print_moment(moment, out),
        End::Endless => put(out, b"end"),
    }
}
