//! The form of a line.

ghost use Rattle.std.specs.Prelude.{◌≡◌, option_map, IfOk, IfErr, Ok, Err};
ghost use Rattle.lpis_cert.specs.Reading.{form, kind_of as kind_named, words};
ghost use Rattle.lpis_cert.specs.Reading.{word_count as count_of_words, has_its_id as named_right};
ghost use Rattle.lpis_cert.specs.Reading.{is_known as known, merge_of as merge_named};
ghost use Rattle.lpis_cert.specs.CertText.{side as side_text};
ghost use Rattle.lpis_cert.specs.Reading.{first_is_id as id_first};
ghost use Rattle.lpis_cert.specs.Reading.{first_is_split_or_merge as split_or_merge_first};
ghost use Rattle.lpis_cert.specs.Reading.{can_stand as may_stand, kind_placed as placed_line};

use crate::fault::CertCode;
use crate::kind::{Expected, Kind, Stage};
use crate::version::Version;
use crate::words::{Words, count};
use lpis_tables::is_id_text;

#[tactic(auto, unfolding(crate::specs::Reading::kind_of))]
fn kind_of(word: &[u8]) -> Option<Kind>
    ensures { result ≡ kind_named word.now }
{
    if word == b"t".as_slice() {
        Some(Kind::Triangle)
    } else if word == b"f".as_slice() {
        Some(Kind::Flat)
    } else if word == b"s".as_slice() {
        Some(Kind::Pair)
    } else if word == b"piece".as_slice() {
        Some(Kind::Piece)
    } else if word == b"parcel".as_slice() {
        Some(Kind::Parcel)
    } else if word == b"exact".as_slice() {
        Some(Kind::Exact)
    } else if word == b"pairs".as_slice() {
        Some(Kind::Pairs)
    } else if word == b"end".as_slice() {
        Some(Kind::End)
    } else {
        None
    }
}

fn word_count(kind: Kind) -> usize
    ensures { result ≡ count_of_words kind }
{
    match kind {
        Kind::Piece => 4,
        Kind::Triangle => 7,
        Kind::Flat => 7,
        Kind::Parcel => 3,
        Kind::Exact => 4,
        Kind::Pairs => 2,
        Kind::Pair => 4,
        Kind::End => 1,
    }
}

fn can_stand(expected: Expected, kind: Kind) -> bool
    ensures { result ≡ may_stand expected kind }
{
    match expected {
        Expected::One(wanted) => wanted == kind,
        Expected::Block(stage) => match kind {
            Kind::Piece => matches!(stage, Stage::Pieces),
            Kind::Parcel => !matches!(stage, Stage::Exacts),
            Kind::Exact | Kind::Pairs => true,
            Kind::Triangle | Kind::Flat | Kind::Pair | Kind::End => false,
        },
    }
}

/// Whether texts of the version have lines of this kind.
fn is_known(version: Version, kind: Kind) -> bool
    ensures { result ≡ known version kind }
{
    !matches!(kind, Kind::Exact) || version.has_exact()
}

fn first_is_id(words: &Words<'_>) -> bool
    ensures { result ≡ id_first words.now }
{
    match words.front() {
        Some(word) => is_id_text(word),
        None => false,
    }
}

/// `merge`, or `split`.
pub(crate) fn side(merge: bool) -> &'static str
    ensures { result.now ≡ side_text merge }
{
    if merge { "merge" } else { "split" }
}

/// Whether a word is `merge`, where it is that or `split`.
pub(crate) fn merge_of(word: &[u8]) -> Option<bool>
    ensures { result ≡ merge_named word.now }
{
    if word == side(false).as_bytes() {
        Some(false)
    } else if word == side(true).as_bytes() {
        Some(true)
    } else {
        None
    }
}

/// Whether the words begin with `split` or `merge` and an identifier.
fn first_is_split_or_merge(mut words: Words<'_>) -> bool
    ensures { result ≡ split_or_merge_first words.entry }
{
    match words.next() {
        Some(word) => merge_of(word).is_some() && first_is_id(&words),
        None => false,
    }
}

#[tactic(auto)]
fn names(kind: Kind, words: &Words<'_>) -> bool
    ensures { result ≡ named_right kind words.now }
{
    match kind {
        Kind::Piece | Kind::Parcel => first_is_id(words),
        Kind::Exact => first_is_split_or_merge(words.copy()),
        Kind::Triangle | Kind::Flat | Kind::Pairs | Kind::Pair | Kind::End => true,
    }
}

/// A line's kind and its further words, where its form is right.
#[tactic(auto, unfolding(crate::specs::Reading::form))]
fn formed(version: Version, line: &[u8]) -> Option<(Kind, Words<'_>)>
    ensures { form version (words line.now) ≡ option_map (λ p. (p.0, p.1)) result }
{
    let count = count(line)?;
    let mut words = Words::new(line);
    let first = words.next()?;
    let kind = kind_of(first)?;
    if is_known(version, kind) && count == word_count(kind) && names(kind, &words) {
        Some((kind, words))
    } else {
        None
    }
}

/// The line's kind and further words, where its form is right and its kind can stand.
#[tactic(auto, unfolding(crate::specs::Reading::kind_placed))]
pub(crate) fn placed(
    version: Version,
    expected: Expected,
    line: &[u8],
) -> Result<(Kind, Words<'_>), CertCode>
    ensures ok { IfOk result (λ p. placed_line version expected line.now ≡ Ok (p.0, p.1)) }
    ensures err { IfErr result (λ code. placed_line version expected line.now ≡ Err code) }
{
    match formed(version, line) {
        None => Err(CertCode::LineForm),
        Some((kind, words)) => {
            if can_stand(expected, kind) {
                Ok((kind, words))
            } else {
                Err(CertCode::BadPlace)
            }
        }
    }
}
