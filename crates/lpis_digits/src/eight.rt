//! Eight bytes at a time.

ghost use Rattle.std.specs.Prelude.{◌≡◌, ℕ, ◌<◌, ◌≤◌, List, length, take};
ghost use Rattle.std.specs.List.{prefix_len};
ghost use Rattle.std.specs.Char.{is_ascii_digit};
ghost use Rattle.lpis_digits.specs.private.Words.{AllBytes, behind_zeros, spelled, word_of};

use std::simd::prelude::*;

/// The bytes of a word.
pub const WORD: usize = 8;

/// The number of the digits among the first eight bytes.
#[inline(always)]
pub fn digits_among_eight(text: &[u8]) -> usize
    requires { WORD ≤ length text.now }
    ensures { result ≡ prefix_len is_ascii_digit (take WORD text.now) }
{
    let above = u8x8::from_slice(text) - u8x8::splat(b'0');
    let others = above.simd_ge(u8x8::splat(10)).to_bitmask();
    if others == 0 {
        WORD
    } else {
        others.trailing_zeros() as usize
    }
}

/// The first eight bytes as a number, the first byte the lowest.
#[inline(always)]
pub fn first_word(text: &[u8]) -> u64
    requires { WORD ≤ length text.now }
    ensures { result ≡ word_of (take WORD text.now) }
{
    u64::from_le_bytes([
        text[0], text[1], text[2], text[3], text[4], text[5], text[6], text[7],
    ])
}

/// The number that a word's bytes spell, each the digit of its lower half.
#[inline(always)]
pub fn spelled(word: u64) -> u64
    ensures { (bytes : List ℕ) → length bytes ≡ WORD → AllBytes bytes → word ≡ word_of bytes
        → result ≡ spelled 0 bytes }
{
    let digits = word & 0x0F0F_0F0F_0F0F_0F0F;
    let pairs = (digits * 10 + (digits >> 8)) & 0x00FF_00FF_00FF_00FF;
    let fours = (pairs * 100 + (pairs >> 16)) & 0x0000_FFFF_0000_FFFF;
    (fours * 10_000 + (fours >> 32)) & 0xFFFF_FFFF
}

/// The word whose last bytes are the first of another, behind zeros.
#[inline(always)]
pub fn moved_to_end(word: u64, count: usize) -> u64
    requires { count < WORD }
    ensures { (bytes : List ℕ) → length bytes ≡ WORD → AllBytes bytes → word ≡ word_of bytes
        → result ≡ word_of (behind_zeros count bytes) }
{
    (word << 8) << (8 * (7 - count as u32))
}

/// The same of a word of which some bytes are kept, by one shift.
#[inline(always)]
pub fn some_moved_to_end(word: u64, count: usize) -> u64
    requires { (0 < count) × (count < WORD) }
    ensures { (bytes : List ℕ) → length bytes ≡ WORD → AllBytes bytes → word ≡ word_of bytes
        → result ≡ word_of (behind_zeros count bytes) }
{
    word << (8 * (8 - count as u32))
}
