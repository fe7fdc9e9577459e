//! A number in the form in which nearly all are written, in one pass over its bytes.

ghost use Rattle.std.specs.Prelude.{◌≡◌, ℕ, ◌+◌, ◌-◌, ◌≤◌, ◌<◌, ◌^◌, ◌∷◌, true, List, Ok, IfSome};
ghost use Rattle.std.specs.Prelude.{length};
ghost use Rattle.std.specs.Prelude.{drop};
ghost use Rattle.std.specs.List.{list_all};
ghost use Rattle.std.specs.Char.{is_ascii_digit};
ghost use Rattle.std.specs.Str.Parse.{digits_value};
ghost use Rattle.lpis_wkt.specs.private.Coordinates.{coordinate_in_range};
ghost use Rattle.lpis_wkt.specs.Number.{coordinate_decimals, greatest_limit, most_decimals, signed};
ghost use Rattle.lpis_wkt.specs.private.Runs.{IsPart, IsPlain, IsSign, IsTail, SpellsAt};
ghost use Rattle.lpis_wkt.specs.Tokens.{Word, tokens_from};

use crate::coordinate::Coordinate;
use crate::number::{DECIMALS, GREATEST};
use crate::tokens::is_word;
use lpis_digits::{leading_digits, power_of_ten, short_digits};

/// A number that stands in a text.
#[derive(Clone, Copy)]
pub struct FoundNumber {
    /// Whether it has a `-`.
    pub negative: bool,
    /// Its size, in units of the last decimal.
    pub size: u64,
    /// Where it ends.
    pub end: usize,
}

/// The number of the digits from here on, 16 at most, and where they end.
#[inline(always)]
fn digits_at(text: &[u8], at: usize) -> (u64, usize)
    requires { at ≤ length text.now }
    ensures digits { (digits : List ℕ) × IsPart text.now at result.1 digits
        × (list_all is_ascii_digit digits ≡ true) × (result.0 ≡ digits_value 10 digits) }
    ensures after { at ≤ result.1 }
    ensures few { result.0 < 10 ^ (result.1 - at) }
{
    let digits = leading_digits(&text[at..]);
    (digits.value, at + digits.count)
}

/// What the decimals that stand here behind a point are worth, in units of the last of so many, and
/// where they end. It is 0 where no point stands here.
#[inline(always)]
fn decimals_at(text: &[u8], at: usize, decimals: usize) -> Option<(u64, usize)>
    requires within { at ≤ length text.now }
    requires decimals { decimals ≤ most_decimals }
    ensures tail { IfSome result (λ r. (tail : List ℕ) × IsPart text.now at r.1 tail
        × IsTail decimals tail r.0) }
    ensures few { IfSome result (λ r. r.0 < 10 ^ decimals) }
{
    if at < text.len() && text[at] == b'.' {
        let (value, end) = digits_at(text, at + 1);
        let count = end - (at + 1);
        if count > decimals {
            None
        } else {
            Some((value * power_of_ten(decimals - count), end))
        }
    } else {
        Some((0, at))
    }
}

/// A numeral with no sign, and where it ends.
#[inline(always)]
fn plain_number(text: &[u8], at: usize, decimals: usize, greatest: u64) -> Option<(u64, usize)>
    requires within { at ≤ length text.now }
    requires decimals { decimals ≤ most_decimals }
    requires limit { greatest ≤ greatest_limit }
    ensures { IfSome result (λ r. (body : List ℕ) × IsPart text.now at r.1 body
        × IsPlain decimals greatest body r.0) }
{
    let (whole, point) = digits_at(text, at);
    let unit = power_of_ten(decimals);
    if point == at || whole > greatest / unit {
        return None;
    }
    let (part, end) = decimals_at(text, point, decimals)?;
    let size = whole * unit + part;
    if size > greatest {
        None
    } else {
        Some((size, end))
    }
}

/// Whether the number that begins here is negative, and where it goes on past its sign.
#[inline(always)]
fn past_sign(text: &[u8], at: usize) -> (bool, usize)
    requires { at < length text.now }
    ensures sign { (sign : List ℕ) × IsPart text.now at result.1 sign × IsSign sign result.0 }
    ensures near { result.1 ≤ at + 1 }
{
    match text[at] {
        b'-' => (true, at + 1),
        b'+' => (false, at + 1),
        _ => (false, at),
    }
}

/// The number that begins here. `None` says nothing of what stands here.
#[inline(always)]
pub fn common_number(text: &[u8], at: usize, decimals: usize, greatest: u64) -> Option<FoundNumber>
    requires within { at ≤ length text.now }
    requires decimals { decimals ≤ most_decimals }
    requires limit { greatest ≤ greatest_limit }
    ensures { IfSome result (λ r. (word : List ℕ)
        × SpellsAt decimals greatest text.now at r.end r.negative r.size word) }
{
    if at == text.len() {
        return None;
    }
    let (negative, start) = past_sign(text, at);
    let (size, end) = plain_number(text, start, decimals, greatest)?;
    Some(FoundNumber {
        negative,
        size,
        end,
    })
}

/// The number of this size.
pub fn signed(negative: bool, size: u64) -> i64
    requires { size ≤ greatest_limit }
    ensures { result ≡ signed negative size }
{
    if negative {
        -(size as i64)
    } else {
        size as i64
    }
}

/// The room that a number is read in that is as short as nearly all are: a sign, eight bytes from its
/// first digit on, and eight from its first decimal on.
pub const SHORT_ROOM: usize = 17;

/// The number of the digits from here on, and where they end, if they are one to seven.
#[inline(always)]
fn short_digits_at(text: &[u8], at: usize) -> Option<(u64, usize)>
    requires { at + 8 ≤ length text.now }
    ensures digits { IfSome result (λ r. (digits : List ℕ) × IsPart text.now at r.1 digits
        × (list_all is_ascii_digit digits ≡ true) × (r.0 ≡ digits_value 10 digits)
        × (0 < length digits)) }
    ensures after { IfSome result (λ r. (at < r.1) × (r.1 < at + 8)) }
    ensures few { IfSome result (λ r. r.0 < 10 ^ (r.1 - at)) }
    ensures small { IfSome result (λ r. r.0 < 10000000) }
{
    let digits = short_digits(&text[at..])?;
    Some((digits.value, at + digits.count))
}

/// As `decimals_at`, of decimals where a coordinate has them.
#[inline(always)]
fn short_decimals_at(text: &[u8], at: usize) -> Option<(u64, usize)>
    requires { at + 9 ≤ length text.now }
    ensures tail { IfSome result (λ r. (tail : List ℕ) × IsPart text.now at r.1 tail
        × IsTail coordinate_decimals tail r.0) }
    ensures after { IfSome result (λ r. (at ≤ r.1) × (r.1 < at + 9)) }
    ensures few { IfSome result (λ r. r.0 < 1000) }
{
    if text[at] == b'.' {
        let (value, end) = short_digits_at(text, at + 1)?;
        let count = end - (at + 1);
        if count > DECIMALS {
            None
        } else {
            Some((value * power_of_ten(DECIMALS - count), end))
        }
    } else {
        Some((0, at))
    }
}

/// The size in millimetres of the numeral with no sign that begins here, and where it ends.
#[inline(always)]
fn short_size(text: &[u8], at: usize) -> Option<(u64, usize)>
    requires { at + 16 ≤ length text.now }
    ensures body { IfSome result (λ r. (body : List ℕ) × IsPart text.now at r.1 body
        × IsPlain coordinate_decimals GREATEST body r.0) }
    ensures after { IfSome result (λ r. r.1 < at + 16) }
{
    let (whole, point) = short_digits_at(text, at)?;
    let (part, end) = short_decimals_at(text, point)?;
    Some((whole * 1000 + part, end))
}

/// The coordinate of the word that begins here, and where the word ends, if it is as short as
/// nearly all are.
#[inline(always)]
pub fn short_coordinate(text: &[u8], at: usize) -> Option<(Coordinate, usize)>
    requires { at + SHORT_ROOM ≤ length text.now }
    ensures after { IfSome result (λ r. r.1 < at + SHORT_ROOM) }
    ensures word { IfSome result (λ r. (word : List ℕ) × (coordinate_in_range word ≡ Ok r.0)
        × (tokens_from at (drop at text.now) ≡ (at, Word word) ∷ tokens_from r.1
        (drop r.1 text.now))) }
{
    let (negative, start) = past_sign(text, at);
    let (size, end) = short_size(text, start)?;
    if is_word(text[end]) {
        return None;
    }
    Some((coordinate(negative, size), end))
}

/// The coordinate of this size.
fn coordinate(negative: bool, size: u64) -> Coordinate
    requires { size ≤ GREATEST }
    ensures { result.value ≡ signed negative size }
{
    let value = signed(negative, size);
    Coordinate { value }
}

/// The coordinate of the word that begins here, and where the word ends. `None` says nothing of the
/// word.
pub fn common_coordinate(text: &[u8], at: usize) -> Option<(Coordinate, usize)>
    requires { at < length text.now }
    ensures within { IfSome result (λ r. r.1 ≤ length text.now) }
    ensures word { IfSome result (λ r. (word : List ℕ) × (coordinate_in_range word ≡ Ok r.0)
        × (tokens_from at (drop at text.now) ≡ (at, Word word) ∷ tokens_from r.1
        (drop r.1 text.now))) }
{
    let found = common_number(text, at, DECIMALS, GREATEST)?;
    if found.end < text.len() && is_word(text[found.end]) {
        return None;
    }
    Some((coordinate(found.negative, found.size), found.end))
}
