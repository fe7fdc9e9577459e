//! The words that are no numbers.

ghost use Rattle.std.specs.Prelude.{◌≡◌};
ghost use Rattle.lpis_wkt.specs.Grammar.{is_polygon, is_multi};
ghost use Rattle.lpis_wkt.specs.Tokens.{Word};
ghost use Rattle.lpis_wkt.specs.Table.{is_dimension, is_empty_word, is_keyword_with_dimension};
ghost use Rattle.lpis_wkt.specs.Table.{has_srid, keyword_code};

use crate::fault::WktCode;

/// Whether the word is `POLYGON`, in any mix of ASCII cases.
pub fn is_polygon(word: &[u8]) -> bool
    ensures { result ≡ is_polygon word.now }
{
    word.eq_ignore_ascii_case(b"POLYGON")
}

/// Whether the word is `MULTIPOLYGON`.
pub fn is_multi(word: &[u8]) -> bool
    ensures { result ≡ is_multi word.now }
{
    word.eq_ignore_ascii_case(b"MULTIPOLYGON")
}

/// Whether the word says that the points have a third or a fourth number.
pub fn is_dimension(word: &[u8]) -> bool
    ensures { result ≡ is_dimension word.now }
{
    word.eq_ignore_ascii_case(b"Z")
        || word.eq_ignore_ascii_case(b"M")
        || word.eq_ignore_ascii_case(b"ZM")
}

/// Whether the word is `EMPTY`.
pub fn is_empty(word: &[u8]) -> bool
    ensures { result ≡ is_empty_word word.now }
{
    word.eq_ignore_ascii_case(b"EMPTY")
}

/// Whether a keyword goes on with a mark of a third or a fourth number.
fn is_keyword_with_dimension(word: &[u8]) -> bool
    ensures { result ≡ is_keyword_with_dimension word.now }
{
    word.eq_ignore_ascii_case(b"POLYGONZ")
        || word.eq_ignore_ascii_case(b"POLYGONM")
        || word.eq_ignore_ascii_case(b"POLYGONZM")
        || word.eq_ignore_ascii_case(b"MULTIPOLYGONZ")
        || word.eq_ignore_ascii_case(b"MULTIPOLYGONM")
        || word.eq_ignore_ascii_case(b"MULTIPOLYGONZM")
}

/// Whether the word begins with `SRID=`.
fn has_srid(word: &[u8]) -> bool
    ensures { result ≡ has_srid word.now }
{
    let front = if word.len() < 5 { word } else { &word[..5] };
    front.eq_ignore_ascii_case(b"SRID=")
}

/// The fault of a word that stands for the keyword and is none.
pub fn keyword_code(word: &[u8]) -> WktCode
    ensures { result ≡ keyword_code (Word word.now) }
{
    if has_srid(word) || is_keyword_with_dimension(word) {
        WktCode::Dimension
    } else {
        WktCode::Keyword
    }
}
