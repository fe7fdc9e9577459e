//! What the further words of a line say.

ghost use Rattle.std.specs.Prelude.{◌≡◌, ◌≤◌, Some, None, MatchOption, option_map};
ghost use Rattle.lpis_points.specs.Range.{IsInRange};
ghost use Rattle.lpis_cert.specs.Limits.{greatest_count};
ghost use Rattle.lpis_cert.specs.Reading.{front, cert_number as number_of};
ghost use Rattle.lpis_cert.specs.Reading.{cert_coordinate as coordinate_of};
ghost use Rattle.lpis_cert.specs.Reading.{point as point_of, corners as corners_in};
ghost use Rattle.lpis_cert.specs.Reading.{separator as separator_in};
ghost use Rattle.lpis_cert.specs.Contents.{corner_numbers, separator_of};

use crate::number::{coordinate, number};
use crate::part::PairLine;
use crate::version::Version;
use crate::words::Words;
use lpis_points::{Point, Triangle};

/// The greatest count of lines, and the greatest number of a triangle.
pub const GREATEST_COUNT: u64 = 4_294_967_295;

/// The number of the last edge of a pair of triangles.
const LAST_EDGE: u64 = 5;

fn next_coordinate(version: Version, words: &mut Words<'_>) -> Option<i64>
    ensures { MatchOption result (front (coordinate_of version) words.old ≡ None)
        (λ z. (front (coordinate_of version) words.old ≡ Some (z, words.new)) × IsInRange z) }
{
    match words.next() {
        None => None,
        Some(word) => coordinate(version, word),
    }
}

#[tactic(auto, unfolding(crate::specs::Reading::point))]
fn next_point(version: Version, words: &mut Words<'_>) -> Option<Point>
    ensures { MatchOption result (point_of version words.old ≡ None)
        (λ p. point_of version words.old ≡ Some ((p.x, p.y), words.new)) }
{
    let x = next_coordinate(version, words)?;
    let y = next_coordinate(version, words)?;
    Some(Point { x, y })
}

/// The three corners that words spell.
#[tactic(auto, unfolding(crate::specs::Reading::corners))]
pub(crate) fn corners(version: Version, mut words: Words<'_>) -> Option<Triangle>
    ensures { corners_in version words.entry ≡ option_map corner_numbers result }
{
    let a = next_point(version, &mut words)?;
    let b = next_point(version, &mut words)?;
    let c = next_point(version, &mut words)?;
    match words.next() {
        None => Some(Triangle { a, b, c }),
        Some(_) => None,
    }
}

/// The next word as a number, if it is at most the limit.
pub(crate) fn next_number(words: &mut Words<'_>, limit: u64) -> Option<u64>
    requires { limit ≤ greatest_count }
    ensures { MatchOption result (front (number_of limit) words.old ≡ None)
        (λ n. (front (number_of limit) words.old ≡ Some (n, words.new)) × (n ≤ limit)) }
{
    match words.next() {
        None => None,
        Some(word) => number(word, limit),
    }
}

/// The separator that words spell.
#[tactic(auto, unfolding(crate::specs::Reading::separator))]
pub(crate) fn separator(mut words: Words<'_>) -> Option<PairLine>
    ensures { separator_in words.entry ≡ option_map separator_of result }
{
    let i = next_number(&mut words, GREATEST_COUNT)?;
    let j = next_number(&mut words, GREATEST_COUNT)?;
    let k = next_number(&mut words, LAST_EDGE)?;
    match words.next() {
        None => Some(PairLine {
            i: i as u32,
            j: j as u32,
            k: k as u8,
        }),
        Some(_) => None,
    }
}
