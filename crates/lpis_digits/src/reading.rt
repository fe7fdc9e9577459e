//! The digits that a text begins with.

ghost use Rattle.std.specs.Prelude.{◌≡◌, ◌<◌, ◌≤◌, ◌^◌, length, take, min, true, false};
ghost use Rattle.std.specs.Prelude.{get_or, IfSome};
ghost use Rattle.std.specs.List.{list_all, prefix_len};
ghost use Rattle.std.specs.Char.{is_ascii_digit};
ghost use Rattle.std.specs.Str.Parse.{digits_value};
ghost use Rattle.lpis_digits.specs.Digits.{digit_count};

use crate::eight::{
    WORD, digits_among_eight, first_word, moved_to_end, some_moved_to_end, spelled,
};
use crate::powers::power_of_ten;

/// The most digits that are read.
pub const MOST_DIGITS: usize = 16;

/// Digits that a text begins with.
#[derive(Clone, Copy)]
pub struct Digits {
    /// How many they are.
    pub count: usize,
    /// The number that they spell.
    pub value: u64,
}

/// The digits among the first eight bytes.
#[inline(always)]
fn digits_of_word(text: &[u8]) -> Digits
    requires { WORD ≤ length text.now }
    ensures count { result.count ≡ prefix_len is_ascii_digit (take WORD text.now) }
    ensures value { result.value ≡ digits_value 10 (take result.count text.now) }
{
    let count = digits_among_eight(text);
    let word = first_word(text);
    let value = if count == WORD {
        spelled(word)
    } else {
        spelled(moved_to_end(word, count))
    };
    Digits { count, value }
}

/// The digits of a text of fewer than eight bytes.
fn digits_of_short(text: &[u8]) -> Digits
    requires { length text.now < WORD }
    ensures count { result.count ≡ prefix_len is_ascii_digit text.now }
    ensures value { result.value ≡ digits_value 10 (take result.count text.now) }
{
    let mut value = 0;
    let mut count = 0;
    while count < text.len() && text[count].is_ascii_digit() {
        value = value * 10 + u64::from(text[count] - b'0');
        count += 1;
    }
    Digits { count, value }
}

/// The digits that a text begins with, eight at most.
#[inline(always)]
fn first_digits(text: &[u8]) -> Digits
    ensures count { result.count ≡ min WORD (prefix_len is_ascii_digit text.now) }
    ensures value { result.value ≡ digits_value 10 (take result.count text.now) }
    ensures few { result.value < 10 ^ result.count }
{
    if text.len() < WORD {
        digits_of_short(text)
    } else {
        digits_of_word(text)
    }
}

/// The digits that a text of eight bytes or more begins with, if they are one to seven: the quickest
/// way to read them.
#[inline(always)]
pub fn short_digits(text: &[u8]) -> Option<Digits>
    requires { 8 ≤ length text.now }
    ensures some { IfSome result (λ d. (0 < d.count) × (d.count < 8)) }
    ensures count { IfSome result (λ d. d.count ≡ prefix_len is_ascii_digit text.now) }
    ensures value { IfSome result (λ d. d.value ≡ digits_value 10 (take d.count text.now)) }
    ensures digits { IfSome result
        (λ d. list_all is_ascii_digit (take d.count text.now) ≡ true) }
    ensures few { IfSome result (λ d. d.value < 10 ^ d.count) }
{
    let count = digits_among_eight(text);
    if count == 0 || count == WORD {
        return None;
    }
    let value = spelled(some_moved_to_end(first_word(text), count));
    Some(Digits { count, value })
}

/// The digits that a text begins with, and their number; `MOST_DIGITS` of them where there are
/// more.
#[inline(always)]
pub fn leading_digits(text: &[u8]) -> Digits
    ensures count { result.count ≡ digit_count text.now }
    ensures value { result.value ≡ digits_value 10 (take result.count text.now) }
    // What comes of these two.
    ensures within { result.count ≤ length text.now }
    ensures digits { list_all is_ascii_digit (take result.count text.now) ≡ true }
    ensures stops { result.count < length text.now → result.count < MOST_DIGITS
        → is_ascii_digit (get_or text.now result.count 0) ≡ false }
    ensures few { result.value < 10 ^ result.count }
{
    let first = first_digits(text);
    if first.count < WORD {
        return first;
    }
    let second = first_digits(&text[WORD..]);
    Digits {
        count: WORD + second.count,
        value: first.value * power_of_ten(second.count) + second.value,
    }
}
