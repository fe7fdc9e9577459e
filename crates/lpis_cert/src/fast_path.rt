//! Lines of corners and pair lines as they are usually written, read in one pass. What is refused
//! here is looked at again word by word.

ghost use Rattle.std.specs.Prelude.{◌≡◌, ◌≤◌, ◌++◌, ◌∷◌, cond, false, get_or, length, take};
ghost use Rattle.std.specs.Prelude.{IfSome};
ghost use Rattle.std.specs.Str.Parse.{AllDigits, digits_value};
ghost use Rattle.std.specs.Fmt.{decimal};
ghost use Rattle.lpis_points.specs.Range.{IsInRange};
ghost use Rattle.lpis_cert.specs.Limits.{last_edge};
ghost use Rattle.lpis_cert.specs.Versions.{greatest_in_version};
ghost use Rattle.lpis_cert.specs.CertText.{coordinate_word, spelling};
ghost use Rattle.lpis_cert.specs.Fitting.{CoordinateFits, CornersFit};
ghost use Rattle.lpis_cert.specs.Contents.{corner_numbers};
ghost use Rattle.lpis_cert.specs.private.Taken.{BeginsWithWord, corner_line};

use crate::fields::GREATEST_COUNT;
use crate::part::PairLine;
use crate::version::Version;
use lpis_digits::{Digits, MOST_DIGITS, leading_digits};
use lpis_points::{Point, Triangle};

/// What comes after a byte, where the text begins with it.
fn skip(text: &[u8], byte: u8) -> Option<&[u8]>
    ensures { IfSome result (λ rest. text.now ≡ byte ∷ rest.now) }
{
    match text {
        [first, rest @ ..] => { if *first == byte { Some(rest) } else { None } }
        [] => None,
    }
}

/// The digits that a text begins with, by the number that the first eight of them spell.
#[inline(always)]
fn digits_after_eight(text: &[u8], eight: u64) -> Digits
    requires long { 8 ≤ length text.now }
    requires digits { AllDigits 10 (take 8 text.now) }
    requires value { eight ≡ digits_value 10 (take 8 text.now) }
    ensures within { result.count ≤ length text.now }
    ensures digits { AllDigits 10 (take result.count text.now) }
    ensures value { result.value ≡ digits_value 10 (take result.count text.now) }
{
    let most = text.len().min(MOST_DIGITS);
    let mut value = eight;
    for at in 8..most {
        if !text[at].is_ascii_digit() {
            return Digits { count: at, value };
        }
        value = value * 10 + u64::from(text[at] - b'0');
    }
    Digits { count: most, value }
}

/// The digits that a text begins with: eight at once, and the few that mostly come after them one
/// by one.
#[inline(always)]
fn digits_of(text: &[u8]) -> Digits
    ensures within { result.count ≤ length text.now }
    ensures digits { AllDigits 10 (take result.count text.now) }
    ensures value { result.value ≡ digits_value 10 (take result.count text.now) }
{
    let first = leading_digits(&text[..text.len().min(8)]);
    if first.count < 8 {
        return first;
    }
    digits_after_eight(text, first.value)
}

/// Whether digits begin with a 0 that does not stand alone.
#[inline(always)]
fn is_padded(digits: &[u8], count: usize) -> bool
    requires { count ≤ length digits.now }
    ensures { result ≡ false → get_or digits.now 0 0 ≡ 48 → count ≤ 1 }
{
    count > 1 && digits[0] == b'0'
}

/// The number that a word up to a byte spells.
#[inline(always)]
fn leading_number(text: &[u8], end: u8, limit: u64) -> Option<(u64, &[u8])>
    ensures { IfSome result (λ x. BeginsWithWord text.now (decimal x.0) end x.1.now
        × (x.0 ≤ limit)) }
{
    let Digits { count, value } = digits_of(text);
    if count == 0 || count == text.len() || value > limit {
        return None;
    }
    if text[count] != end || is_padded(text, count) {
        return None;
    }
    Some((value, &text[count + 1..]))
}

/// Whether a text begins with a minus, and what comes after that.
#[inline(always)]
fn without_minus(text: &[u8]) -> (bool, &[u8])
    ensures { text.now ≡ cond result.0 (45 ∷ result.1.now) result.1.now }
{
    match text {
        [b'-', digits @ ..] => (true, digits),
        _ => (false, text),
    }
}

/// The coordinate in millimetres that a number spells, after a minus or not; 0 has no minus.
#[inline(always)]
fn signed(version: Version, negative: bool, number: u64) -> Option<i64>
    requires { number ≤ greatest_in_version version }
    ensures word { IfSome result (λ z. coordinate_word version z
        ≡ cond negative (45 ∷ decimal number) (decimal number)) }
    ensures fits { IfSome result (λ z. CoordinateFits version z) }
    ensures range { IfSome result (λ z. IsInRange z) }
{
    let size = version.scaled(number) as i64;
    if !negative {
        return Some(size);
    }
    if number == 0 { None } else { Some(-size) }
}

/// The coordinate in millimetres that a word up to a byte spells.
#[inline(always)]
fn leading_coordinate(version: Version, text: &[u8], end: u8) -> Option<(i64, &[u8])>
    ensures word { IfSome result (λ x. BeginsWithWord text.now
        (coordinate_word version x.0) end x.1.now) }
    ensures fits { IfSome result (λ x. CoordinateFits version x.0) }
    ensures range { IfSome result (λ x. IsInRange x.0) }
{
    let (negative, digits) = without_minus(text);
    let (number, rest) = leading_number(digits, end, version.greatest())?;
    let coordinate = signed(version, negative, number)?;
    Some((coordinate, rest))
}

/// The point that two words spell, the second up to a byte.
#[inline(always)]
fn leading_point(version: Version, text: &[u8], end: u8) -> Option<(Point, &[u8])>
    ensures words { IfSome result (λ p. text.now ≡ coordinate_word version p.0.x
        ++ (32 ∷ (coordinate_word version p.0.y ++ (end ∷ p.1.now)))) }
    ensures fits { IfSome result
        (λ p. CoordinateFits version p.0.x × CoordinateFits version p.0.y) }
{
    let (x, after) = leading_coordinate(version, text, b' ')?;
    let (y, rest) = leading_coordinate(version, after, end)?;
    Some((Point { x, y }, rest))
}

/// The corners that a line spells from its second word on, and the text after its end.
fn leading_triangle(version: Version, text: &[u8]) -> Option<(Triangle, &[u8])>
    ensures words { IfSome result (λ t. text.now ≡ coordinate_word version t.0.a.x
        ++ (32 ∷ (coordinate_word version t.0.a.y
        ++ (32 ∷ (coordinate_word version t.0.b.x
        ++ (32 ∷ (coordinate_word version t.0.b.y
        ++ (32 ∷ (coordinate_word version t.0.c.x
        ++ (32 ∷ (coordinate_word version t.0.c.y ++ (10 ∷ t.1.now)))))))))))) }
    ensures fits { IfSome result (λ t. CornersFit version (corner_numbers t.0)) }
{
    let (a, second) = leading_point(version, text, b' ')?;
    let (b, third) = leading_point(version, second, b' ')?;
    let (c, rest) = leading_point(version, third, b'\n')?;
    Some((Triangle { a, b, c }, rest))
}

fn letter(flat: bool) -> u8
    ensures { result ≡ cond flat 102 116 }
{
    if flat { b'f' } else { b't' }
}

/// A triangle line or a flat line, and the text after its end.
pub(crate) fn leading_corners(
    version: Version,
    flat: bool,
    text: &[u8],
) -> Option<(Triangle, &[u8])>
    ensures line { IfSome result (λ t. BeginsWithWord text.now
        (spelling version (corner_line flat (corner_numbers t.0))) 10 t.1.now) }
    ensures fits { IfSome result (λ t. CornersFit version (corner_numbers t.0)) }
{
    let after = skip(text, letter(flat))?;
    let fields = skip(after, b' ')?;
    let (triangle, rest) = leading_triangle(version, fields)?;
    Some((triangle, rest))
}

/// The number of an edge, with which a pair line ends, and the text after its end.
#[inline(always)]
fn leading_edge(text: &[u8]) -> Option<(u8, &[u8])>
    ensures { IfSome result (λ x. BeginsWithWord text.now (decimal x.0) 10 x.1.now
        × (x.0 ≤ last_edge)) }
{
    match text {
        [digit, after @ ..] => {
            if *digit < b'0' || *digit > b'5' {
                return None;
            }
            let rest = skip(after, b'\n')?;
            Some((*digit - b'0', rest))
        }
        [] => None,
    }
}

/// A pair line, and the text after its end.
pub(crate) fn leading_pair(text: &[u8]) -> Option<(PairLine, &[u8])>
    ensures { IfSome result (λ p. text.now ≡ 115 ∷ 32 ∷ (decimal p.0.i
        ++ (32 ∷ (decimal p.0.j ++ (32 ∷ (decimal p.0.k ++ (10 ∷ p.1.now))))))) }
{
    let after = skip(text, b's')?;
    let fields = skip(after, b' ')?;
    let (i, second) = leading_number(fields, b' ', GREATEST_COUNT)?;
    let (j, third) = leading_number(second, b' ', GREATEST_COUNT)?;
    let (k, rest) = leading_edge(third)?;
    let pair = PairLine {
        i: i as u32,
        j: j as u32,
        k,
    };
    Some((pair, rest))
}
