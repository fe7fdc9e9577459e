//! Decimal digits: how many a text begins with, and their number; a number's text.
//!
//! The layer above may cite: counts and values are `digit_count` and std's `digits_value`, texts
//! std's `decimal`.
//! Begin at `specs/Digits.antt`, then `src/reading.rt` and `src/writing.rt`.
#![tactic(auto)]

mod eight;
mod powers;
mod reading;
mod writing;

pub use powers::power_of_ten;
pub use reading::{Digits, MOST_DIGITS, leading_digits, short_digits};
pub use writing::{
    MOST_BYTES, append_decimal, append_signed, put_byte, put_decimal, put_last_digits, put_signed,
};
