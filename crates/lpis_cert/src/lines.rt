//! Lines of one kind.

ghost use Rattle.std.specs.Prelude.{◌≡◌, ℕ, [], ◌∷◌, map, length, Some, None};
ghost use Rattle.std.specs.Prelude.{MatchResult, IfOk, IfErr};
ghost use Rattle.lpis_cert.specs.CertText.{PairLine as separator_line, EndLine};
ghost use Rattle.lpis_cert.specs.declared.kind.Expected.TheVariants.{One};
ghost use Rattle.lpis_cert.specs.declared.kind.Kind.TheVariants as kind;
ghost use Rattle.lpis_cert.specs.declared.kind.Stage.{Stage};
ghost use Rattle.lpis_cert.specs.Faults.{Declared, InPairs};
ghost use Rattle.lpis_cert.specs.private.Taken.{Placed, LineFault, ReadsLines, FaultFrom};
ghost use Rattle.lpis_cert.specs.private.Taken.{corner_kind as kind_of_corners};
ghost use Rattle.lpis_cert.specs.private.Taken.{corner_line as line_of_corners, wanting};
ghost use Rattle.lpis_cert.specs.Contents.{corner_numbers, triangle_corners, separator_of};

use crate::fast_path::{leading_corners, leading_pair};
use crate::fault::{CertCode, CertFault};
use crate::fields::{corners, separator};
use crate::form::placed;
use crate::kind::{Expected, Kind};
use crate::part::PairLine;
use crate::rest::{Rest, front_line};
use crate::version::Version;
use crate::words::Words;
use lpis_memory::without_spare;
use lpis_points::Triangle;
use std::alloc::Global;

/// The first line's kind and further words.
pub(crate) fn placed_line(
    version: Version,
    expected: Expected,
    rest: Rest<'_>,
) -> Result<(Kind, Words<'_>, Rest<'_>), CertFault>
    ensures { MatchResult result
        (λ x. Placed version expected rest.entry.text.now rest.entry.line x.0 x.1 x.2.text.now
        x.2.line)
        (λ e. LineFault version e rest.entry.line expected rest.entry.text.now) }
{
    let Some((line, after)) = front_line(rest) else {
        return Err(CertFault::At {
            code: CertCode::Truncated,
            line: rest.line,
        });
    };
    match placed(version, expected, line) {
        Ok((kind, words)) => Ok((kind, words, after)),
        Err(code) => Err(CertFault::At {
            code,
            line: rest.line,
        }),
    }
}

fn corner_kind(flat: bool) -> Kind
    ensures { result ≡ kind_of_corners flat }
{
    if flat { Kind::Flat } else { Kind::Triangle }
}

/// A triangle line or a flat line.
pub(crate) fn corner_line(
    version: Version,
    flat: bool,
    rest: Rest<'_>,
) -> Result<(Triangle, Rest<'_>), CertFault>
    ensures { MatchResult result
        (λ x. ReadsLines version rest.entry.text.now rest.entry.line
        (line_of_corners flat (corner_numbers x.0) ∷ []) x.1.text.now x.1.line)
        (λ e. LineFault version e rest.entry.line (One (kind_of_corners flat))
        rest.entry.text.now) }
{
    if let Some((triangle, text)) = leading_corners(version, flat, rest.text) {
        let after = Rest {
            text,
            line: rest.line + 1,
        };
        return Ok((triangle, after));
    }
    let (_, words, after) = placed_line(version, Expected::One(corner_kind(flat)), rest)?;
    match corners(version, words) {
        Some(triangle) => Ok((triangle, after)),
        None => Err(CertFault::At {
            code: CertCode::Number,
            line: rest.line,
        }),
    }
}

/// So many triangle lines or flat lines. They are read into a list that is lent, and the answer has
/// a list of their number.
#[inline(never)]
pub(crate) fn corner_lines<'a>(
    alloc: Global,
    scratch: &mut Vec<Triangle>,
    version: Version,
    flat: bool,
    count: u32,
    rest: Rest<'a>,
) -> Result<(Vec<Triangle>, Rest<'a>), CertFault>
    ensures ok { IfOk result
        (λ x. ReadsLines version rest.entry.text.now rest.entry.line
        (map (line_of_corners flat) (triangle_corners x.0.items)) x.1.text.now x.1.line) }
    ensures count { IfOk result (λ x. length x.0.items ≡ count) }
    ensures err { IfErr result (λ e. (s : Stage) (f : ℕ) (d : Declared)
        → FaultFrom version e rest.entry.line (wanting flat count s f d) rest.entry.text.now) }
{
    scratch.clear();
    let mut left = rest;
    for _ in 0..count {
        let (triangle, after) = corner_line(version, flat, left)?;
        scratch.push(triangle)?;
        left = after;
    }
    Ok((Vec::from_slice(alloc, scratch.as_slice())?, left))
}

/// A pair line.
pub(crate) fn pair_line(version: Version, rest: Rest<'_>) -> Result<(PairLine, Rest<'_>), CertFault>
    ensures { MatchResult result
        (λ x. ReadsLines version rest.entry.text.now rest.entry.line
        (separator_line (separator_of x.0) ∷ []) x.1.text.now x.1.line)
        (λ e. LineFault version e rest.entry.line (One kind.Pair) rest.entry.text.now) }
{
    if let Some((pair, text)) = leading_pair(rest.text) {
        let after = Rest {
            text,
            line: rest.line + 1,
        };
        return Ok((pair, after));
    }
    let (_, words, after) = placed_line(version, Expected::One(Kind::Pair), rest)?;
    match separator(words) {
        Some(pair) => Ok((pair, after)),
        None => Err(CertFault::At {
            code: CertCode::Number,
            line: rest.line,
        }),
    }
}

/// So many pair lines.
#[inline(never)]
pub(crate) fn pair_lines(
    alloc: Global,
    version: Version,
    count: u32,
    rest: Rest<'_>,
) -> Result<(Vec<PairLine>, Rest<'_>), CertFault>
    ensures ok { IfOk result
        (λ x. ReadsLines version rest.entry.text.now rest.entry.line
        (map separator_line (map separator_of x.0.items)) x.1.text.now x.1.line) }
    ensures count { IfOk result (λ x. length x.0.items ≡ count) }
    ensures err { IfErr result
        (λ e. FaultFrom version e rest.entry.line (InPairs count) rest.entry.text.now) }
{
    let mut pairs = Vec::new(alloc);
    let mut left = rest;
    for _ in 0..count {
        let (pair, after) = pair_line(version, left)?;
        pairs.push(pair)?;
        left = after;
    }
    Ok((without_spare(pairs)?, left))
}

/// The last line.
pub(crate) fn end_line(version: Version, rest: Rest<'_>) -> Result<Rest<'_>, CertFault>
    ensures { MatchResult result
        (λ x. ReadsLines version rest.entry.text.now rest.entry.line (EndLine ∷ []) x.text.now
        x.line)
        (λ e. LineFault version e rest.entry.line (One kind.End) rest.entry.text.now) }
{
    let (_, mut words, after) = placed_line(version, Expected::One(Kind::End), rest)?;
    match words.next() {
        None => Ok(after),
        Some(_) => Err(CertFault::At {
            code: CertCode::Number,
            line: rest.line,
        }),
    }
}
