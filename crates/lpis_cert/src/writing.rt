//! The text of a certificate.

ghost use Rattle.std.specs.Prelude.{◌≡◌, ◌+◌, ◌≤◌, ◌∷◌, ◌++◌, [], ℕ, List, OnOk, length};
ghost use Rattle.std.specs.Prelude.{drop};
ghost use Rattle.std.specs.Fmt.{decimal, signed_decimal};
ghost use Rattle.std.specs.List.{flat_map};
ghost use Rattle.lpis_cert.specs.CertText.{PairLine as separator_line, PieceLine, PairsLine};
ghost use Rattle.lpis_cert.specs.CertText.{EndLine};
ghost use Rattle.lpis_cert.specs.private.Taken.{corner_line};
ghost use Rattle.lpis_cert.specs.Contents.{corner_numbers, separator_of, cert_text};
ghost use Rattle.lpis_cert.specs.private.Drafts.{flats_line};
ghost use Rattle.lpis_cert.specs.private.Written.{line_text, corners_text, piece_text, parcel_text};
ghost use Rattle.lpis_cert.specs.private.Written.{flats_text, exact_block_text, pairs_text};
ghost use Rattle.lpis_cert.specs.private.Written.{corner_letter, tail_text};
ghost use Rattle.lpis_cert.specs.private.Written.{version_text, parts_text};

use crate::cert::Cert;
use crate::form::side;
use crate::head::Owner;
use crate::part::{ExactBlock, PairLine, ParcelPart, PiecePart};
use crate::version::Version;
use lpis_digits::{append_decimal, put_byte, put_decimal, put_signed};
use lpis_points::{Point, Triangle};
use lpis_tables::Id;
use std::alloc::AllocError;

/// How many bytes a line of numbers alone has at most: a letter, six numbers, a space before each,
/// and the line end. A line is made from its end.
const MOST_LINE: usize = 128;

/// Puts a number and the space before it in front of a line's end.
fn put_number(value: u64, line: &mut [u8], end: usize) -> usize
    requires { (21 ≤ end) × (end ≤ length line.old) }
    ensures room { end ≤ result + 21 }
    ensures within { result ≤ end }
    ensures written { drop result line.new ≡ 32 ∷ (decimal value ++ drop end line.old) }
{
    let start = put_decimal(value, line, end);
    put_byte(b' ', line, start)
}

/// Puts a coordinate and the space before it in front of a line's end.
fn put_coordinate(value: i64, line: &mut [u8], end: usize) -> usize
    requires { (21 ≤ end) × (end ≤ length line.old) }
    ensures room { end ≤ result + 21 }
    ensures within { result ≤ end }
    ensures written { drop result line.new ≡ 32 ∷ (signed_decimal value ++ drop end line.old) }
{
    let start = put_signed(value, line, end);
    put_byte(b' ', line, start)
}

fn put_point(point: Point, line: &mut [u8], end: usize) -> usize
    requires { (42 ≤ end) × (end ≤ length line.old) }
    ensures room { end ≤ result + 42 }
    ensures within { result ≤ end }
    ensures written { drop result line.new
        ≡ 32 ∷ (signed_decimal point.x ++ 32 ∷ (signed_decimal point.y ++ drop end line.old)) }
{
    let start = put_coordinate(point.y, line, end);
    put_coordinate(point.x, line, start)
}

/// The letter of a triangle or a flat.
fn letter(flat: bool) -> u8
    ensures { result ≡ corner_letter flat }
{
    if flat { b'f' } else { b't' }
}

/// Makes the line of a triangle or a flat, and returns where it begins.
fn put_corners(flat: bool, t: Triangle, line: &mut [u8; MOST_LINE]) -> usize
    ensures within { result ≤ 128 }
    ensures written { drop result line.new ≡ line_text (corner_line flat (corner_numbers t)) }
{
    let mut start = put_byte(b'\n', line, MOST_LINE);
    start = put_point(t.c, line, start);
    start = put_point(t.b, line, start);
    start = put_point(t.a, line, start);
    put_byte(letter(flat), line, start)
}

/// Makes the line of a pair, and returns where it begins.
fn put_pair(pair: PairLine, line: &mut [u8; MOST_LINE]) -> usize
    ensures within { result ≤ 128 }
    ensures written { drop result line.new ≡ line_text (separator_line (separator_of pair)) }
{
    let mut start = put_byte(b'\n', line, MOST_LINE);
    start = put_number(u64::from(pair.k), line, start);
    start = put_number(u64::from(pair.j), line, start);
    start = put_number(u64::from(pair.i), line, start);
    put_byte(b's', line, start)
}

fn append_all_corners(
    flat: bool,
    triangles: &[Triangle],
    out: &mut Vec<u8>,
) -> Result<(), AllocError>
    ensures { OnOk result (out.new.items ≡ out.old.items ++ corners_text flat triangles.now) }
{
    let mut line = [0; MOST_LINE];
    for t in triangles {
        let start = put_corners(flat, *t, &mut line);
        out.extend_from_slice(&line[start..])?;
    }
    Ok(())
}

/// Appends a number and the space before it.
fn append_number(value: usize, out: &mut Vec<u8>) -> Result<(), AllocError>
    ensures { OnOk result (out.new.items ≡ out.old.items ++ 32 ∷ decimal value) }
{
    out.extend_from_slice(b" ")?;
    append_decimal(out, value as u64)
}

#[tactic(auto, unfolding(crate::specs::private::Written::line_text, crate::specs::CertText::spelling, crate::specs::CertText::words_of, crate::specs::CertText::text_of_lines))]
fn append_piece_line(piece: &PiecePart, out: &mut Vec<u8>) -> Result<(), AllocError>
    ensures { OnOk result (out.new.items ≡ out.old.items ++ line_text (PieceLine piece.now.id
        (length piece.now.triangles) (length piece.now.flats))) }
{
    out.extend_from_slice(b"piece ")?;
    out.extend_from_slice(piece.id.as_str().as_bytes())?;
    append_number(piece.triangles.as_slice().len(), out)?;
    append_number(piece.flats.as_slice().len(), out)?;
    out.extend_from_slice(b"\n")
}

fn append_piece(piece: &PiecePart, out: &mut Vec<u8>) -> Result<(), AllocError>
    ensures { OnOk result (out.new.items ≡ out.old.items ++ piece_text piece.now) }
{
    append_piece_line(piece, out)?;
    append_all_corners(false, piece.triangles.as_slice(), out)?;
    append_all_corners(true, piece.flats.as_slice(), out)
}

#[tactic(auto, unfolding(crate::specs::private::Written::line_text, crate::specs::CertText::spelling, crate::specs::CertText::words_of, crate::specs::CertText::text_of_lines))]
/// The words before the identifier in the first line of a block of flats alone.
fn owner_words(owner: Owner) -> &'static [u8]
    ensures { (id : List ℕ) (count : ℕ) → line_text (flats_line owner id count)
        ≡ result.now ++ (id ++ 32 ∷ (decimal count ++ 10 ∷ [])) }
{
    match owner {
        Owner::Parcel => b"parcel ",
        Owner::Exact { merge } => {
            if merge {
                b"exact merge "
            } else {
                b"exact split "
            }
        }
    }
}

#[tactic(auto, unfolding(crate::specs::private::Written::line_text, crate::specs::CertText::spelling, crate::specs::CertText::words_of, crate::specs::CertText::text_of_lines))]
fn append_flats_line(
    owner: Owner,
    id: &Id,
    count: usize,
    out: &mut Vec<u8>,
) -> Result<(), AllocError>
    ensures { OnOk result (out.new.items ≡ out.old.items
        ++ line_text (flats_line owner id.now count)) }
{
    out.extend_from_slice(owner_words(owner))?;
    out.extend_from_slice(id.as_str().as_bytes())?;
    append_number(count, out)?;
    out.extend_from_slice(b"\n")
}

/// A block of flats alone.
fn append_flats(
    owner: Owner,
    id: &Id,
    flats: &[Triangle],
    out: &mut Vec<u8>,
) -> Result<(), AllocError>
    ensures { OnOk result (out.new.items ≡ out.old.items ++ flats_text owner id.now flats.now) }
{
    append_flats_line(owner, id, flats.len(), out)?;
    append_all_corners(true, flats, out)
}

fn append_pieces(pieces: &[PiecePart], out: &mut Vec<u8>) -> Result<(), AllocError>
    ensures { OnOk result (out.new.items ≡ out.old.items ++ flat_map piece_text pieces.now) }
{
    for piece in pieces {
        append_piece(piece, out)?;
    }
    Ok(())
}

fn append_parcels(parcels: &[ParcelPart], out: &mut Vec<u8>) -> Result<(), AllocError>
    ensures { OnOk result (out.new.items ≡ out.old.items ++ flat_map parcel_text parcels.now) }
{
    for parcel in parcels {
        append_flats(Owner::Parcel, &parcel.id, parcel.flats.as_slice(), out)?;
    }
    Ok(())
}

fn append_exacts(blocks: &[ExactBlock], out: &mut Vec<u8>) -> Result<(), AllocError>
    ensures { OnOk result (out.new.items ≡ out.old.items ++ flat_map exact_block_text blocks.now) }
{
    for block in blocks {
        let owner = Owner::Exact { merge: block.merge };
        append_flats(owner, &block.id, block.flats.as_slice(), out)?;
    }
    Ok(())
}

fn append_pairs(pairs: &[PairLine], out: &mut Vec<u8>) -> Result<(), AllocError>
    ensures { OnOk result (out.new.items ≡ out.old.items ++ pairs_text pairs.now) }
{
    let mut line = [0; MOST_LINE];
    for pair in pairs {
        let start = put_pair(*pair, &mut line);
        out.extend_from_slice(&line[start..])?;
    }
    Ok(())
}

#[tactic(auto, unfolding(crate::specs::private::Written::line_text, crate::specs::CertText::spelling, crate::specs::CertText::words_of, crate::specs::CertText::text_of_lines))]
fn append_pairs_line(count: usize, out: &mut Vec<u8>) -> Result<(), AllocError>
    ensures { OnOk result (out.new.items ≡ out.old.items ++ line_text (PairsLine count)) }
{
    out.extend_from_slice(b"pairs")?;
    append_number(count, out)?;
    out.extend_from_slice(b"\n")
}

#[tactic(auto, unfolding(crate::specs::private::Written::line_text, crate::specs::CertText::spelling, crate::specs::CertText::words_of, crate::specs::CertText::text_of_lines))]
fn append_end(out: &mut Vec<u8>) -> Result<(), AllocError>
    ensures { OnOk result (out.new.items ≡ out.old.items ++ line_text EndLine) }
{
    out.extend_from_slice(b"end\n")
}

#[tactic(auto, unfolding(crate::specs::private::Written::version_text))]
fn append_version(out: &mut Vec<u8>) -> Result<(), AllocError>
    ensures { OnOk result (out.new.items ≡ out.old.items ++ version_text) }
{
    out.extend_from_slice(Version::Two.first_line().as_bytes())?;
    out.extend_from_slice(b"\n")
}

fn append_tail(cert: &Cert, out: &mut Vec<u8>) -> Result<(), AllocError>
    ensures { OnOk result (out.new.items ≡ out.old.items ++ tail_text cert.now) }
{
    append_pairs_line(cert.pairs.as_slice().len(), out)?;
    append_pairs(cert.pairs.as_slice(), out)?;
    append_end(out)
}

fn append_from_exacts(cert: &Cert, out: &mut Vec<u8>) -> Result<(), AllocError>
    ensures { OnOk result (out.new.items ≡ out.old.items
        ++ (flat_map exact_block_text cert.now.exact ++ tail_text cert.now)) }
{
    append_exacts(cert.exact.as_slice(), out)?;
    append_tail(cert, out)
}

fn append_from_parcels(cert: &Cert, out: &mut Vec<u8>) -> Result<(), AllocError>
    ensures { OnOk result (out.new.items ≡ out.old.items
        ++ (flat_map parcel_text cert.now.parcels ++ (flat_map exact_block_text cert.now.exact
        ++ tail_text cert.now))) }
{
    append_parcels(cert.parcels.as_slice(), out)?;
    append_from_exacts(cert, out)
}

fn append_parts(cert: &Cert, out: &mut Vec<u8>) -> Result<(), AllocError>
    ensures { OnOk result (out.new.items ≡ out.old.items ++ parts_text cert.now) }
{
    append_version(out)?;
    append_pieces(cert.pieces.as_slice(), out)?;
    append_from_parcels(cert, out)
}

/// Appends the text of a certificate, in version 2. Where memory runs out a beginning of it may
/// stand in the list.
pub fn append_cert(cert: &Cert, out: &mut Vec<u8>) -> Result<(), AllocError>
    ensures { OnOk result (out.new.items ≡ out.old.items ++ cert_text cert.now) }
{
    append_parts(cert, out)
}
