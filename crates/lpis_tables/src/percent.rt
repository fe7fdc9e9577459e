//! Percentages.

ghost use Rattle.std.specs.Prelude.{◌≡◌, ◌≤◌, IfSome};
ghost use Rattle.lpis_tables.specs.Percentages.{percent_of_mark, most_percent, percent_in};

/// The whole of an area in percent.
const MOST_PERCENT: u8 = 100;

/// The percentage that a text spells: `0` to `100`, without a sign or a zero before other digits.
pub(crate) fn percent_in(text: &[u8]) -> Option<u8>
    ensures is { result ≡ percent_in text.now }
    ensures most { IfSome result (λ n. n ≤ most_percent) }
{
    match text {
        [a] => {
            if !a.is_ascii_digit() {
                return None;
            }
            Some(*a - b'0')
        }
        [a, b] => {
            if !a.is_ascii_digit() || *a == b'0' || !b.is_ascii_digit() {
                return None;
            }
            Some((*a - b'0') * 10 + (*b - b'0'))
        }
        b"100" => Some(MOST_PERCENT),
        _ => None,
    }
}

/// The percentage that a mark stands for: `0` for none, and `1` for the whole.
pub(crate) fn mark_in(text: &[u8]) -> Option<u8>
    ensures is { result ≡ percent_of_mark text.now }
    ensures most { IfSome result (λ n. n ≤ most_percent) }
{
    match text {
        b"0" => Some(0),
        b"1" => Some(MOST_PERCENT),
        _ => None,
    }
}
