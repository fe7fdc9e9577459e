//! Points of the plane with rational coordinates.

ghost use Rattle.std.specs.Prelude.{◌≡◌, ◌↔◌, ◌≤ℤ◌, IsSome, IfSome, IsTrue, neg_ℤ, pos};
ghost use Rattle.lpis_points.specs.RationalRange.{IsDenominator, IsInRangeOver};

use crate::point::LIMIT;

/// The greatest denominator of a `RatPoint`.
const GREATEST_DENOMINATOR: i64 = 1_000_000;

/// The point (x/d, y/d) of the plane, in millimetres. Its denominator is 1 to 1,000,000, and both
/// quotients are in the range of a coordinate.
#[derive(Clone, Copy, Debug, PartialEq, Eq)]
pub struct RatPoint {
    pub x: i64,
    pub y: i64,
    pub d: i64,
    pub ghost d_in_range: { IsDenominator d },
    pub ghost x_in_range: { IsInRangeOver d x },
    pub ghost y_in_range: { IsInRangeOver d y },
}

/// Whether a number may be a denominator.
fn is_denominator(d: i64) -> bool
    ensures { IsTrue result ↔ IsDenominator d }
{
    1 <= d && d <= GREATEST_DENOMINATOR
}

/// Whether a number is from `-reach` to `reach`.
fn is_within(number: i64, reach: i64) -> bool
    requires { pos 0 ≤ℤ reach }
    ensures { IsTrue result ↔ ((neg_ℤ reach ≤ℤ number) × (number ≤ℤ reach)) }
{
    -reach <= number && number <= reach
}

/// Whether `parts / d` is in the range of a coordinate.
fn is_in_range_over(d: i64, parts: i64) -> bool
    requires { IsDenominator d }
    ensures { IsTrue result ↔ IsInRangeOver d parts }
{
    is_within(parts, LIMIT * d)
}

impl RatPoint {
    /// The point (x/d, y/d), or `None` where `d` is not 1 to 1,000,000 or a quotient is out of
    /// range.
    pub fn new(x: i64, y: i64, d: i64) -> Option<RatPoint>
        ensures which { IsSome result ↔ (IsDenominator d × IsInRangeOver d x × IsInRangeOver d y) }
        ensures coordinates { IfSome result (λ p. (p.x ≡ x) × (p.y ≡ y) × (p.d ≡ d)) }
    {
        if is_denominator(d) && is_in_range_over(d, x) && is_in_range_over(d, y) {
            Some(RatPoint { x, y, d })
        } else {
            None
        }
    }
}
