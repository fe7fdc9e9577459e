//! Numbers of one spelling.

ghost use Rattle.std.specs.Prelude.{◌≡◌, ◌≤◌, IfSome};
ghost use Rattle.lpis_points.specs.Range.{IsInRange};
ghost use Rattle.lpis_cert.specs.Limits.{number_margin};
ghost use Rattle.lpis_cert.specs.Reading.{cert_number, digits_on, cert_coordinate};

use crate::version::Version;

fn digits(digits: &[u8], limit: u64) -> Option<u64>
    requires { limit ≤ number_margin }
    ensures is { result ≡ digits_on limit 0 digits.now }
    ensures most { IfSome result (λ n. n ≤ limit) }
{
    let mut value = 0;
    for d in digits {
        if !d.is_ascii_digit() {
            return None;
        }
        value = value * 10 + u64::from(*d - b'0');
        if value > limit {
            return None;
        }
    }
    Some(value)
}

/// The number that a word spells, if it is at most the limit.
#[tactic(auto, unfolding(crate::specs::Reading::cert_number))]
pub(crate) fn number(word: &[u8], limit: u64) -> Option<u64>
    requires { limit ≤ number_margin }
    ensures is { result ≡ cert_number limit word.now }
    ensures most { IfSome result (λ n. n ≤ limit) }
{
    match word {
        [] => None,
        [b'0'] => Some(0),
        [b'0', ..] => None,
        _ => digits(word, limit),
    }
}

/// The coordinate in millimetres that a word spells.
#[tactic(auto, unfolding(crate::specs::Reading::cert_coordinate))]
pub(crate) fn coordinate(version: Version, word: &[u8]) -> Option<i64>
    ensures is { result ≡ cert_coordinate version word.now }
    ensures range { IfSome result IsInRange }
{
    match word {
        [] => None,
        [b'-', digits @ ..] => match number(digits, version.greatest()) {
            None | Some(0) => None,
            Some(n) => Some(-(version.scaled(n) as i64)),
        },
        _ => match number(word, version.greatest()) {
            None => None,
            Some(n) => Some(version.scaled(n) as i64),
        },
    }
}
