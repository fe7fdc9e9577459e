//! Powers of ten.

ghost use Rattle.std.specs.Prelude.{◌≡◌, ◌≤◌, ◌^◌};

const POWERS: [u64; 17] = [
    1,
    10,
    100,
    1_000,
    10_000,
    100_000,
    1_000_000,
    10_000_000,
    100_000_000,
    1_000_000_000,
    10_000_000_000,
    100_000_000_000,
    1_000_000_000_000,
    10_000_000_000_000,
    100_000_000_000_000,
    1_000_000_000_000_000,
    10_000_000_000_000_000,
];

/// 10 to the power of a number of digits, as far as digits are read.
#[inline(always)]
pub fn power_of_ten(exponent: usize) -> u64
    requires { exponent ≤ 16 }
    ensures { result ≡ 10 ^ exponent }
{
    POWERS[exponent]
}
