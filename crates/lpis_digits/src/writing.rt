//! Decimal numbers, written in front of a text.
//!
//! A text is made from its end: what is written next stands before it. So the length of a number
//! need not be known first.

ghost use Rattle.std.specs.Prelude.{◌≡◌, ◌+◌, ◌/◌, ◌%◌, ◌<◌, ◌≤◌, ◌∷◌, ◌++◌, length, drop, is_ok};
ghost use Rattle.std.specs.Prelude.{if◌then◌else◌};
ghost use Rattle.std.specs.Fmt.{decimal, signed_decimal};
ghost use Rattle.lpis_points.specs.Decimals.{last_digits};

use std::alloc::AllocError;

/// How many bytes a number has at most, with its sign.
pub const MOST_BYTES: usize = 20;

/// The numbers below a hundred, with two digits each.
static PAIRS: [u8; 200] =
    *b"00010203040506070809101112131415161718192021222324252627282930313233343536373839\
40414243444546474849505152535455565758596061626364656667686970717273747576777879\
8081828384858687888990919293949596979899";

/// Writes two digits, the first of them at `at`.
#[inline(always)]
fn put_pair(pair: u64, text: &mut [u8], at: usize)
    requires { (pair < 100) × (at + 2 ≤ length text.old) }
    ensures { drop at text.new ≡ (48 + pair / 10) ∷ (48 + pair % 10) ∷ drop (at + 2) text.old }
{
    let from = pair as usize * 2;
    let (tens, ones) = (PAIRS[from], PAIRS[from + 1]);
    text[at] = tens;
    text[at + 1] = ones;
}

/// Puts a number below a hundred in front of a text.
#[inline(always)]
fn put_small(value: u64, text: &mut [u8], end: usize) -> usize
    requires { (value < 100) × ((length (decimal value) ≤ end) × (end ≤ length text.old)) }
    ensures start { result + length (decimal value) ≡ end }
    ensures written { drop result text.new ≡ decimal value ++ drop end text.old }
{
    if value < 10 {
        text[end - 1] = b'0' + value as u8;
        return end - 1;
    }
    put_pair(value, text, end - 2);
    end - 2
}

/// Puts a number in front of the text that begins at `end`, and returns where it begins now.
pub fn put_decimal(value: u64, text: &mut [u8], end: usize) -> usize
    requires { (20 ≤ end) × (end ≤ length text.old) }
    ensures start { result + length (decimal value) ≡ end }
    ensures room { end ≤ result + 20 }
    ensures written { drop result text.new ≡ decimal value ++ drop end text.old }
{
    let mut left = value;
    let mut at = end;
    while left >= 100 {
        at -= 2;
        put_pair(left % 100, text, at);
        left /= 100;
    }
    put_small(left, text, at)
}

/// Puts a number, which may be below zero, in front of the text that begins at `end`, and returns
/// where it begins now.
pub fn put_signed(value: i64, text: &mut [u8], end: usize) -> usize
    requires { (20 ≤ end) × (end ≤ length text.old) }
    ensures start { result + length (signed_decimal value) ≡ end }
    ensures room { end ≤ result + 20 }
    ensures written { drop result text.new ≡ signed_decimal value ++ drop end text.old }
{
    let start = put_decimal(value.unsigned_abs(), text, end);
    if value >= 0 {
        return start;
    }
    text[start - 1] = b'-';
    start - 1
}

/// Puts the last digits of a number, as many as `width`, in front of the text that begins at `end`,
/// zeros among them, and returns where it begins now.
pub fn put_last_digits(value: u64, width: usize, text: &mut [u8], end: usize) -> usize
    requires { (width ≤ end) × (end ≤ length text.old) }
    ensures start { result + width ≡ end }
    ensures written { drop result text.new ≡ last_digits width value ++ drop end text.old }
{
    let mut left = value;
    let mut at = end;
    for _ in 0..width {
        at -= 1;
        text[at] = b'0' + (left % 10) as u8;
        left /= 10;
    }
    at
}

/// Puts a byte in front of the text that begins at `end`.
#[inline(always)]
pub fn put_byte(byte: u8, text: &mut [u8], end: usize) -> usize
    requires { (1 ≤ end) × (end ≤ length text.old) }
    ensures start { result + 1 ≡ end }
    ensures written { drop result text.new ≡ byte ∷ drop end text.old }
{
    text[end - 1] = byte;
    end - 1
}

/// Appends a number to a list. Where memory runs out the list stays as it was.
pub fn append_decimal(out: &mut Vec<u8>, value: u64) -> Result<(), AllocError>
    ensures { out.new.items
        ≡ (if is_ok result then out.old.items ++ decimal value else out.old.items) }
{
    let mut text = [0; MOST_BYTES];
    let start = put_decimal(value, &mut text, MOST_BYTES);
    out.extend_from_slice(&text[start..])
}

/// Appends a number, which may be below zero, to a list. Where memory runs out the list stays as it
/// was.
pub fn append_signed(out: &mut Vec<u8>, value: i64) -> Result<(), AllocError>
    ensures { out.new.items
        ≡ (if is_ok result then out.old.items ++ signed_decimal value else out.old.items) }
{
    let mut text = [0; MOST_BYTES];
    let start = put_signed(value, &mut text, MOST_BYTES);
    out.extend_from_slice(&text[start..])
}
