//! The number that a word spells.

ghost use Rattle.std.specs.Prelude.{◌≡◌, ◌<◌, ◌≤◌, ◌++◌, true, get_or, MatchOption};
ghost use Rattle.std.specs.Prelude.{nat_abs, position, IfOk};
ghost use Rattle.std.specs.List.{list_all};
ghost use Rattle.std.specs.Char.{digit_value, is_ascii_digit};
ghost use Rattle.std.specs.Str.Parse.{digits_value, digits_value_after};
ghost use Rattle.lpis_wkt.specs.Number.{greatest_limit, is_point, most_decimals, number_within};
ghost use Rattle.lpis_wkt.specs.Number.{is_negative, whole, decimals, padded, unsigned};
ghost use Rattle.lpis_wkt.specs.private.Coordinates.{coordinate_in_range};
ghost use Rattle.lpis_wkt.specs.private.Runs.{is_zero_digit};

use crate::coordinate::Coordinate;
use crate::fast_path::{common_number, signed};
use crate::fault::WktCode;

/// The decimals of a coordinate: the text is in metres, a coordinate in millimetres.
pub const DECIMALS: usize = 3;

/// The greatest size of a coordinate.
pub const GREATEST: u64 = lpis_points::LIMIT as u64;

fn is_negative(word: &[u8]) -> bool
    ensures { result ≡ is_negative word.now }
{
    matches!(word, [b'-', ..])
}

fn without_sign(word: &[u8]) -> &[u8]
    ensures { result.now ≡ unsigned word.now }
{
    match word {
        [b'+' | b'-', rest @ ..] => rest,
        _ => word,
    }
}

fn point_of(bytes: &[u8]) -> Option<usize>
    ensures { result ≡ position is_point bytes.now }
{
    bytes.iter().position(|b| *b == b'.')
}

/// The digits before the point, and those after it.
fn parts(word: &[u8]) -> (&[u8], &[u8])
    ensures { (result.0.now ≡ whole word.now) × (result.1.now ≡ decimals word.now) }
{
    let digits = without_sign(word);
    match point_of(digits) {
        Some(i) => (&digits[..i], &digits[i + 1..]),
        None => (digits, &[]),
    }
}

fn are_digits(bytes: &[u8]) -> bool
    ensures { result ≡ list_all is_ascii_digit bytes.now }
{
    bytes.iter().all(|b| b.is_ascii_digit())
}

fn are_zeros(bytes: &[u8]) -> bool
    ensures { result ≡ list_all is_zero_digit bytes.now }
{
    bytes.iter().all(|b| *b == b'0')
}

/// The number of these digits, if it is not above the greatest.
fn whole_number(digits: &[u8], greatest: u64) -> Option<u64>
    requires limit { greatest ≤ greatest_limit }
    requires digits { list_all is_ascii_digit digits.now ≡ true }
    ensures { MatchOption result (greatest < digits_value 10 digits.now)
        (λ n. (n ≡ digits_value 10 digits.now) × (n ≤ greatest)) }
{
    let mut value = 0;
    for b in digits {
        value = value * 10 + u64::from(*b - b'0');
        if value > greatest {
            return None;
        }
    }
    Some(value)
}

/// The digit at an index, or 0 where there is none.
fn digit_at(digits: &[u8], i: usize) -> u64
    requires { list_all is_ascii_digit digits.now ≡ true }
    ensures value { result ≡ digit_value (get_or digits.now i 48) }
    ensures digit { result < 10 }
{
    if i < digits.len() {
        u64::from(digits[i] - b'0')
    } else {
        0
    }
}

/// The number with so many decimals after it, if it is not above the greatest.
fn with_decimals(front: u64, digits: &[u8], decimals: usize, greatest: u64) -> Option<u64>
    requires limit { greatest ≤ greatest_limit }
    requires front { front ≤ greatest }
    requires digits { list_all is_ascii_digit digits.now ≡ true }
    ensures { MatchOption result
        (greatest < digits_value_after 10 front (padded decimals digits.now))
        (λ n. (n ≡ digits_value_after 10 front (padded decimals digits.now))
        × (n ≤ greatest)) }
{
    let mut value = front;
    for i in 0..decimals {
        value = value * 10 + digit_at(digits, i);
        if value > greatest {
            return None;
        }
    }
    Some(value)
}

/// The size of the number of these parts, if it is not above the greatest.
fn size(whole: &[u8], fraction: &[u8], decimals: usize, greatest: u64) -> Option<u64>
    requires limit { greatest ≤ greatest_limit }
    requires whole { list_all is_ascii_digit whole.now ≡ true }
    requires fraction { list_all is_ascii_digit fraction.now ≡ true }
    ensures { MatchOption result
        (greatest < digits_value 10 (whole.now ++ padded decimals fraction.now))
        (λ n. (n ≡ digits_value 10 (whole.now ++ padded decimals fraction.now))
        × (n ≤ greatest)) }
{
    let front = whole_number(whole, greatest)?;
    with_decimals(front, fraction, decimals, greatest)
}

/// The number that a word spells, in whichever form.
#[tactic(auto, unfolding(crate::specs::Number::number_within))]
fn any_number(word: &[u8], decimals: usize, greatest: u64) -> Result<i64, WktCode>
    requires limit { greatest ≤ greatest_limit }
    ensures is { result ≡ number_within decimals greatest word.now }
    ensures range { IfOk result (λ z. nat_abs z ≤ greatest) }
{
    let (whole, fraction) = parts(word);
    if !(are_digits(whole) && are_digits(fraction) && whole.len() + fraction.len() > 0) {
        return Err(WktCode::NotANumber);
    }
    if fraction.len() > decimals && !are_zeros(&fraction[decimals..]) {
        return Err(WktCode::TooFine);
    }
    match size(whole, fraction, decimals, greatest) {
        None => Err(WktCode::OutOfRange),
        Some(n) => Ok(signed(is_negative(word), n)),
    }
}

/// The number that a word spells in units of the last of so many decimals, if its size is not above
/// the greatest.
pub fn number_within(word: &[u8], decimals: usize, greatest: u64) -> Result<i64, WktCode>
    requires decimals { decimals ≤ most_decimals }
    requires limit { greatest ≤ greatest_limit }
    ensures is { result ≡ number_within decimals greatest word.now }
    ensures range { IfOk result (λ z. nat_abs z ≤ greatest) }
{
    match common_number(word, 0, decimals, greatest) {
        Some(number) if number.end == word.len() => Ok(signed(number.negative, number.size)),
        _ => any_number(word, decimals, greatest),
    }
}

/// The coordinate that a word spells.
pub fn coordinate_of(word: &[u8]) -> Result<Coordinate, WktCode>
    ensures { result ≡ coordinate_in_range word.now }
{
    match any_number(word, DECIMALS, GREATEST) {
        Ok(value) => Ok(Coordinate { value }),
        Err(code) => Err(code),
    }
}
