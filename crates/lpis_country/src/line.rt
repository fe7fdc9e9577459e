//! One line.

ghost use Rattle.std.specs.Prelude.{◌≡◌, IfOk, MatchOption, None, nat_abs, nat_le, option_map};
ghost use Rattle.std.specs.Fmt.{signed_decimal};
ghost use Rattle.std.specs.List.{list_all};
ghost use Rattle.std.specs.Str.{bytes_eq};
ghost use Rattle.std.specs.Str.Parse.{signed_digits_value};
ghost use Rattle.lpis_points.specs.Range.{limit};
ghost use Rattle.lpis_country.specs.CountryText.{is_name_byte as name_byte, is_region_name};
ghost use Rattle.lpis_country.specs.Faults.{coordinate_in, name_in, tree_line};
ghost use Rattle.lpis_country.specs.private.Lines.{line_read};

use lpis_points::LIMIT;
use std::alloc::{AllocError, Global};

/// The most characters of a region's name.
const LONGEST_NAME: usize = 100;

/// What a line after the first says.
#[derive(Clone, Copy)]
pub(crate) enum Line<'a> {
    /// A cut by the line of this x.
    X(i64),
    /// A cut by the line of this y.
    Y(i64),
    /// A region of this name.
    Region(&'a str),
}

/// The number that a word's digits write, if it has no other bytes than a number's.
fn parsed(word: &[u8]) -> Option<i64>
    ensures { MatchOption result (coordinate_in word.now ≡ None)
        (λ z. z ≡ signed_digits_value 10 word.now) }
{
    let Ok(text) = str::from_utf8(word) else {
        return None;
    };
    match text.parse::<i64>() {
        Ok(value) => Some(value),
        Err(_) => None,
    }
}

/// Whether a word is the text of a number.
fn is_text_of(alloc: Global, word: &[u8], value: i64) -> Result<bool, AllocError>
    ensures { IfOk result (λ b. b ≡ bytes_eq word.now (signed_decimal value)) }
{
    let text = value.to_string(alloc)?;
    Ok(word == text.as_bytes())
}

/// Whether a coordinate is in range.
fn is_in_range(value: i64) -> bool
    ensures { result ≡ nat_le (nat_abs value) (nat_abs limit) }
{
    value.unsigned_abs() <= LIMIT as u64
}

/// The coordinate that a word spells.
#[tactic(auto, unfolding(crate::specs::Faults::coordinate_in))]
fn coordinate(alloc: Global, word: &[u8]) -> Result<Option<i64>, AllocError>
    ensures { IfOk result (λ o. o ≡ coordinate_in word.now) }
{
    let Some(value) = parsed(word) else {
        return Ok(None);
    };
    if is_text_of(alloc, word, value)? && is_in_range(value) {
        Ok(Some(value))
    } else {
        Ok(None)
    }
}

/// Whether a byte is a character of a region's name.
fn is_name_byte(b: u8) -> bool
    ensures { result ≡ name_byte b }
{
    matches!(b, b'a'..=b'z' | b'A'..=b'Z' | b'0'..=b'9' | b'_' | b'-')
}

/// Whether each byte is one.
fn all_name_bytes(bytes: &[u8]) -> bool
    ensures { result ≡ list_all name_byte bytes.now }
{
    bytes.iter().all(|b| is_name_byte(*b))
}

/// Whether bytes are a region's name.
fn is_name(bytes: &[u8]) -> bool
    ensures { result ≡ is_region_name bytes.now }
{
    1 <= bytes.len() && bytes.len() <= LONGEST_NAME && all_name_bytes(bytes)
}

/// The region's name that a word is.
fn name(word: &[u8]) -> Option<&str>
    ensures { option_map (λ s. s.now) result ≡ name_in word.now }
{
    if !is_name(word) {
        return None;
    }
    match str::from_utf8(word) {
        Ok(text) => Some(text),
        // Its characters are ASCII.
        Err(_) => unreachable!(),
    }
}

/// What a line says, if it has the form of one.
#[tactic(auto, unfolding(crate::specs::Faults::tree_line))]
pub(crate) fn line_of(alloc: Global, line: &[u8]) -> Result<Option<Line<'_>>, AllocError>
    ensures { IfOk result (λ o. option_map line_read o ≡ tree_line line.now) }
{
    if let Some(word) = line.strip_prefix(b"x ".as_slice()) {
        let Some(x) = coordinate(alloc, word)? else {
            return Ok(None);
        };
        return Ok(Some(Line::X(x)));
    }
    if let Some(word) = line.strip_prefix(b"y ".as_slice()) {
        let Some(y) = coordinate(alloc, word)? else {
            return Ok(None);
        };
        return Ok(Some(Line::Y(y)));
    }
    let Some(word) = line.strip_prefix(b"region ".as_slice()) else {
        return Ok(None);
    };
    match name(word) {
        Some(text) => Ok(Some(Line::Region(text))),
        None => Ok(None),
    }
}
