//! The coordinate of a point that a word spells.

ghost use Rattle.std.specs.Prelude.{◌≡◌, IfOk};
ghost use Rattle.lpis_points.specs.RationalRange.{IsInRangeOver};
ghost use Rattle.lpis_places.specs.Numbers.{number, parts};

use crate::spot::PARTS;
use lpis_points::LIMIT;
use lpis_wkt::{WktCode, number_within};

/// The decimals of a point's coordinate: the text is in metres, the number in millionths of a
/// millimetre.
const DECIMALS: usize = 9;

/// The greatest size of a coordinate.
const GREATEST: u64 = LIMIT as u64 * PARTS as u64;

/// The coordinate that a word spells, in millionths of a millimetre.
pub(crate) fn number(word: &[u8]) -> Result<i64, WktCode>
    ensures is { result ≡ number word.now }
    ensures range { IfOk result (IsInRangeOver parts) }
{
    number_within(word, DECIMALS, GREATEST)
}
