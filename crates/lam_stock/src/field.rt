// What a field of a record reads as.

ghost use Rattle.std.specs.Prelude.{◌≡◌, ◌==◌, ◌^◌, ◌<◌, ◌≤◌, length, unsigned_abs};
ghost use Rattle.std.specs.Prelude.{IsTrue, IfSome};
ghost use Rattle.std.specs.List.{list_all};
ghost use Rattle.lam_stock.specs.Field as spec;

use crate::item::Kind;

/// The field with no blank at either end.
pub(crate) fn without_blanks(field: &[u8]) -> &[u8]
    ensures { result.now ≡ spec.without_blanks field.now }
{
    without_end_blanks(without_start_blanks(field))
}

// the field with no blank at its start
fn without_start_blanks(field: &[u8]) -> &[u8]
    ensures { result.now ≡ spec.without_start_blanks field.now }
{
    let mut left = field;
    while let [first, rest @ ..] = left {
        if !is_blank(*first) {
            return left;
        }
        left = rest;
    }
    left
}

// the field with no blank at its end
fn without_end_blanks(field: &[u8]) -> &[u8]
    ensures { result.now ≡ spec.without_end_blanks field.now }
{
    let mut left = field;
    while let [rest @ .., last] = left {
        if !is_blank(*last) {
            return left;
        }
        left = rest;
    }
    left
}

// tells whether a byte is a space or a tab
fn is_blank(byte: u8) -> bool
    ensures { result ≡ spec.is_blank byte }
{
    byte == b' ' || byte == b'\t'
}

/// Tells whether a byte is a letter `a` to `z`.
pub(crate) fn is_letter(byte: u8) -> bool
    ensures { result ≡ spec.is_letter byte }
{
    byte >= b'a' && byte <= b'z'
}

/// Tells whether a byte is a digit.
pub(crate) fn is_digit(byte: u8) -> bool
    ensures { result ≡ spec.is_digit byte }
{
    byte >= b'0' && byte <= b'9'
}

/// Reads a field as a kind.
pub(crate) fn kind(field: &[u8]) -> Option<Kind>
    ensures { result ≡ spec.kind_of field.now }
{
    if field == b"ply".as_slice() {
        Some(Kind::Ply)
    } else if field == b"pair".as_slice() {
        Some(Kind::Pair)
    } else {
        None
    }
}

/// Reads a word as a number: an optional `-`, then `0` or at most 15 digits that do not begin
/// with 0, and no `-0`. A number has one such word.
pub fn number(field: &[u8]) -> Option<i64>
    ensures value { result ≡ spec.number_of field.now }
    ensures small { IfSome result (λ n. unsigned_abs n < 10 ^ 15) }
{
    match field {
        [] => None,
        [b'-', digits @ ..] => match whole(digits) {
            None | Some(0) => None,
            Some(size) => Some(-(size as i64)),
        },
        digits => match whole(digits) {
            None => None,
            Some(size) => Some(size as i64),
        },
    }
}

/// Reads a word as a whole number: `0`, or at most 15 digits that do not begin with 0.
pub fn whole(digits: &[u8]) -> Option<u64>
    ensures value { result ≡ spec.whole_of digits.now }
    ensures small { IfSome result (λ n. n < 10 ^ 15) }
{
    if is_whole(digits) {
        Some(value(digits))
    } else {
        None
    }
}

// tells whether digits are 0, or at most 15 that do not begin with 0
fn is_whole(digits: &[u8]) -> bool
    ensures tells { result ≡ spec.is_whole digits.now }
    ensures digits { IsTrue result → IsTrue (list_all spec.is_digit digits.now) }
    ensures short { IsTrue result → length digits.now ≤ 15 }
{
    if digits.is_empty() || digits.len() > 15 {
        return false;
    }
    if begins_with_zero(digits) && digits.len() > 1 {
        return false;
    }
    all_digits(digits)
}

// tells whether each byte of a field is a digit
fn all_digits(field: &[u8]) -> bool
    ensures { result ≡ list_all spec.is_digit field.now }
{
    field.iter().all(|b| is_digit(*b))
}

// tells whether digits begin with 0
fn begins_with_zero(digits: &[u8]) -> bool
    ensures { result ≡ spec.begins_with (λ b. b == 48) digits.now }
{
    match digits {
        [first, ..] => *first == b'0',
        [] => false,
    }
}

// the number that at most 15 digits stand for
fn value(digits: &[u8]) -> u64
    requires digits { IsTrue (list_all spec.is_digit digits.now) }
    requires short { length digits.now ≤ 15 }
    ensures value { result ≡ spec.digits_value digits.now }
    ensures small { result < 10 ^ 15 }
{
    let mut value = 0;
    for digit in digits {
        value = value * 10 + (*digit - b'0') as u64;
    }
    value
}
