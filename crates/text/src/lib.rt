//! Lines of fields parted by commas, and the decimal numbers in them.
#![tactic(auto)]

ghost use Rattle.std.specs.Prelude.{◌≡◌, ◌==◌, ◌+◌, ◌^◌, ◌<◌, ◌≤◌, ◌∷◌, length, position, IfSome, IfOk, vec_items};
ghost use Rattle.std.specs.Option.{option_map};
ghost use Rattle.text.specs.Fields.{comma, bytes_left, field_of, rest_of, fields, fields_left, PartsOneWay};
ghost use Rattle.text.specs.Numbers.{below, decimal, with_next, number32, needless_zero, short_number, numbers_of};

use std::alloc::{AllocError, Global};

/// The byte that parts fields.
const COMMA: u8 = b',';

/// The most digits that a number has.
const MOST_DIGITS: usize = 10;

/// The most digits that a short number has.
const MOST_SHORT_DIGITS: usize = 7;

/// A field: the line's own bytes between two commas, and the place in the line at which they begin.
#[derive(Clone, Copy)]
pub struct Field<'a> {
    pub bytes: &'a [u8],
    pub place: usize,
}

/// What is left of a line from a place on: no bytes, where the place lies past the end.
#[derive(Clone, Copy)]
pub struct Rest<'a> {
    pub line: &'a [u8],
    pub place: usize,
}

impl<'a> Rest<'a> {
    /// All of a line.
    pub fn whole(line: &'a [u8]) -> Rest<'a>
        ensures line { result.line.now ≡ line.now }
        ensures place { result.place ≡ 0 }
        ensures left { bytes_left result ≡ line.now }
    {
        Rest { line, place: 0 }
    }

    /// The bytes that are left.
    pub fn bytes(self) -> &'a [u8]
        ensures { result.now ≡ bytes_left self.entry }
    {
        self.line.get(self.place..).unwrap_or(&[])
    }
}

/// Whether a byte parts fields.
fn is_comma(byte: &u8) -> bool
    ensures { result ≡ (byte.now == comma) }
{
    *byte == COMMA
}

/// The place of the first comma.
fn first_comma(bytes: &[u8]) -> Option<usize>
    ensures { result ≡ position (λ b. b == comma) bytes.now }
{
    bytes.iter().position(is_comma)
}

/// The first field of what is left of a line, and what is left after the field's comma, if it has one.
pub fn split_field(rest: Rest<'_>) -> (Field<'_>, Option<Rest<'_>>)
    ensures field { result.0.bytes.now ≡ field_of (bytes_left rest.entry) }
    ensures place { result.0.place ≡ rest.entry.place }
    ensures rest { option_map bytes_left result.1 ≡ rest_of (bytes_left rest.entry) }
    ensures rest_place { IfSome result.1 (λ next. (next.line.now ≡ rest.entry.line.now) × (next.place ≡ rest.entry.place + length result.0.bytes.now + 1)) }
    ensures fields { fields (bytes_left rest.entry) ≡ result.0.bytes.now ∷ fields_left (option_map bytes_left result.1) }
{
    let bytes = rest.bytes();
    let place = rest.place;
    let Some(length) = first_comma(bytes) else {
        return (Field { bytes, place }, None);
    };
    let field = Field {
        bytes: &bytes[..length],
        place,
    };
    let next = Rest {
        line: rest.line,
        place: place + length + 1,
    };
    (field, Some(next))
}

/// How many fields a line has: one more than it has commas.
pub fn count_fields(line: &[u8]) -> usize
    ensures count { result ≡ length (fields line.now) }
    ensures law { PartsOneWay line.now }
{
    line.split(is_comma).count()
}

/// The number with one more digit behind it, if the byte is a digit.
fn with_digit(number: u64, byte: &u8) -> Option<u64>
    requires { number < 10 ^ 10 }
    ensures { result ≡ with_next number byte.now }
{
    if !byte.is_ascii_digit() {
        return None;
    }
    Some(number * 10 + u64::from(*byte - b'0'))
}

/// The number that a field of at most 10 bytes writes in decimal digits, if it fits 32 bits.
fn read_digits(field: &[u8]) -> Option<u32>
    requires { length field.now ≤ 10 }
    ensures { result ≡ below (2 ^ 32) (decimal field.now) }
{
    if field.is_empty() {
        return None;
    }
    let number = field.iter().try_fold(0, with_digit)?;
    u32::try_from(number).ok()
}

/// The number of 1 to 10 digits that a field writes, if it fits 32 bits.
pub fn read_number(field: &[u8]) -> Option<u32>
    ensures { result ≡ number32 field.now }
{
    if field.len() > MOST_DIGITS {
        return None;
    }
    read_digits(field)
}

/// Whether a zero stands in front of another byte.
fn has_needless_zero(field: &[u8]) -> bool
    ensures { result ≡ needless_zero field.now }
{
    matches!(field, [b'0', _, ..])
}

/// The number of 1 to 7 digits, with no needless zero in front, that a field writes.
#[tactic(auto, using(crate::proofs::Digits::short_fits))]
pub fn read_short_number(field: &[u8]) -> Option<u32>
    ensures { result ≡ short_number field.now }
{
    if field.len() > MOST_SHORT_DIGITS || has_needless_zero(field) {
        return None;
    }
    read_digits(field)
}

/// The numbers in the fields of a rest, in order, if each field is a number: none where there is no rest.
pub fn read_numbers(heap: Global, rest: Option<Rest<'_>>) -> Result<Option<Vec<u32>>, AllocError>
    ensures { IfOk result (λ numbers. option_map vec_items numbers ≡ numbers_of (option_map bytes_left rest.entry)) }
{
    let mut numbers = Vec::new(heap);
    let Some(unread) = rest else {
        return Ok(Some(numbers));
    };
    for field in unread.bytes().split(is_comma) {
        let Some(number) = read_number(field) else {
            return Ok(None);
        };
        numbers.push(number)?;
    }
    Ok(Some(numbers))
}
