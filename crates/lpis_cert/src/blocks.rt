//! A draft with one more block.

ghost use Rattle.std.specs.Prelude.{◌≡◌, ◌≤◌, ◌+◌, ◌∷◌, [], ℕ, List, true, length, sum_by, IfOk};
ghost use Rattle.std.specs.Prelude.{IfErr};
ghost use Rattle.lpis_cert.specs.Limits.{most_flats, greatest_count};
ghost use Rattle.lpis_points.specs.Triangles.{most_triangles};
ghost use Rattle.lpis_tables.specs.Ids.{is_id};
ghost use Rattle.lpis_cert.specs.declared.kind.Stage.TheVariants as stage;
ghost use Rattle.lpis_cert.specs.declared.fault.CertFault.TheVariants.{Memory};
ghost use Rattle.lpis_cert.specs.CertText.{PieceLine, PairsLine, content_lines};
ghost use Rattle.lpis_cert.specs.Fitting.{LineFits};
ghost use Rattle.lpis_cert.specs.LineKinds.{line_kind};
ghost use Rattle.lpis_cert.specs.Reading.{can_stand};
ghost use Rattle.lpis_cert.specs.declared.kind.Expected.TheVariants.{Block};
ghost use Rattle.lpis_cert.specs.private.Taken.{ReadsLines, FaultFrom};
ghost use Rattle.lpis_cert.specs.Contents.{content_of};
ghost use Rattle.lpis_cert.specs.private.Drafts.{DraftGrown, Progressed, Whole, draft_state};
ghost use Rattle.lpis_cert.specs.private.Drafts.{HasParts, draft_lines, flats_line, OneMore};

use crate::cert::{Cert, MOST_FLATS, MOST_TRIANGLES};
use crate::draft::{Draft, Progress};
use crate::fault::{CertCode, CertFault};
use crate::head::{Head, Owner, head_at};
use crate::lines::{corner_lines, end_line, pair_lines};
use crate::part::{ExactBlock, PairLine, ParcelPart, PiecePart};
use crate::rest::Rest;
use lpis_memory::{Sequence, without_spare};
use lpis_points::Triangle;
use lpis_tables::Id;
use std::alloc::Global;

/// A piece of its lines' values.
fn piece_part(id: Id, triangles: Vec<Triangle>, flats: Vec<Triangle>) -> PiecePart
    requires { is_id id ≡ true }
    ensures id { result.id ≡ id }
    ensures triangles { result.triangles ≡ triangles.items }
    ensures flats { result.flats ≡ flats.items }
{
    PiecePart {
        id,
        triangles: Sequence::new(triangles),
        flats: Sequence::new(flats),
    }
}

/// A parcel of its lines' values.
fn parcel_part(id: Id, flats: Vec<Triangle>) -> ParcelPart
    requires { is_id id ≡ true }
    ensures id { result.id ≡ id }
    ensures flats { result.flats ≡ flats.items }
{
    ParcelPart {
        id,
        flats: Sequence::new(flats),
    }
}

/// An exact block of its lines' values.
fn exact_part(merge: bool, id: Id, flats: Vec<Triangle>) -> ExactBlock
    requires { is_id id ≡ true }
    ensures merge { result.merge ≡ merge }
    ensures id { result.id ≡ id }
    ensures flats { result.flats ≡ flats.items }
{
    ExactBlock {
        merge,
        id,
        flats: Sequence::new(flats),
    }
}

/// The certificate of all its parts.
fn cert_of(
    pieces: Vec<PiecePart>,
    parcels: Vec<ParcelPart>,
    exact: Vec<ExactBlock>,
    pairs: Vec<PairLine>,
) -> Cert
    requires triangles_few { sum_by (λ p. length p.triangles) pieces.items ≤ most_triangles }
    requires flats_few { sum_by (λ p. length p.flats) pieces.items + sum_by (λ p. length p.flats)
        parcels.items + sum_by (λ b. length b.flats) exact.items ≤ most_flats }
    requires pairs_few { length pairs.items ≤ greatest_count }
    ensures parts { HasParts result pieces.items parcels.items exact.items pairs.items }
{
    Cert {
        pieces: Sequence::new(pieces),
        parcels: Sequence::new(parcels),
        exact: Sequence::new(exact),
        pairs: Sequence::new(pairs),
    }
}

/// The lines of a piece.
fn piece_block<'a>(
    alloc: Global,
    draft: &mut Draft,
    id: Id,
    triangle_count: u32,
    flat_count: u32,
    start: Rest<'a>,
    after: Rest<'a>,
) -> Result<Rest<'a>, CertFault>
    requires begins { ReadsLines draft.old.version start.text.now start.line
        (PieceLine id triangle_count flat_count ∷ [])
        after.text.now after.line }
    requires named { is_id id ≡ true }
    requires fresh { draft.old.stage ≡ stage.Pieces }
    ensures ok { IfOk result (λ rest. DraftGrown draft.old draft.new start.entry.text.now
        start.entry.line rest.text.now rest.line) }
    ensures err { IfErr result (λ e. FaultFrom draft.old.version e start.entry.line
        (draft_state draft.old) start.entry.text.now) }
{
    let all_triangles = draft.triangles + triangle_count as u64;
    let all_flats = draft.flats + flat_count as u64;
    if all_triangles > MOST_TRIANGLES || all_flats > MOST_FLATS {
        return Err(CertFault::At {
            code: CertCode::TooMany,
            line: start.line,
        });
    }
    let (version, scratch) = (draft.version, &mut draft.scratch);
    let (own_triangles, middle) = corner_lines(
        alloc,
        scratch,
        version,
        false,
        triangle_count,
        after,
    )?;
    let (own_flats, rest) = corner_lines(alloc, scratch, version, true, flat_count, middle)?;
    draft.pieces.push(piece_part(id, own_triangles, own_flats))?;
    draft.triangles = all_triangles;
    draft.flats = all_flats;
    Ok(rest)
}

/// One more block of flats, among the parcels or the exact blocks.
fn add_flats(
    parcels: &mut Vec<ParcelPart>,
    exact: &mut Vec<ExactBlock>,
    owner: Owner,
    id: Id,
    flats: Vec<Triangle>,
) -> Result<(), CertFault>
    requires { is_id id ≡ true }
    ensures ok { IfOk result (λ _. OneMore owner id flats.items parcels.old.items
        exact.old.items parcels.new.items exact.new.items) }
    ensures err { IfErr result (λ e. (e ≡ Memory) × (parcels.new.items ≡ parcels.old.items)
        × (exact.new.items ≡ exact.old.items)) }
{
    match owner {
        Owner::Parcel => parcels.push(parcel_part(id, flats))?,
        Owner::Exact { merge } => exact.push(exact_part(merge, id, flats))?,
    }
    Ok(())
}

/// The lines of a block of flats alone.
fn flat_block<'a>(
    alloc: Global,
    draft: &mut Draft,
    owner: Owner,
    id: Id,
    flat_count: u32,
    start: Rest<'a>,
    after: Rest<'a>,
) -> Result<Rest<'a>, CertFault>
    requires begins { ReadsLines draft.old.version start.text.now start.line
        (flats_line owner id flat_count ∷ []) after.text.now after.line }
    requires fits { LineFits draft.old.version (flats_line owner id flat_count) }
    requires stands { can_stand (Block draft.old.stage)
        (line_kind (flats_line owner id flat_count)) ≡ true }
    ensures ok { IfOk result (λ rest. DraftGrown draft.old draft.new start.entry.text.now
        start.entry.line rest.text.now rest.line) }
    ensures err { IfErr result (λ e. FaultFrom draft.old.version e start.entry.line
        (draft_state draft.old) start.entry.text.now) }
{
    let all_flats = draft.flats + flat_count as u64;
    if all_flats > MOST_FLATS {
        return Err(CertFault::At {
            code: CertCode::TooMany,
            line: start.line,
        });
    }
    let (version, scratch) = (draft.version, &mut draft.scratch);
    let (own_flats, rest) = corner_lines(alloc, scratch, version, true, flat_count, after)?;
    add_flats(&mut draft.parcels, &mut draft.exact, owner, id, own_flats)?;
    draft.stage = owner.stage();
    draft.flats = all_flats;
    Ok(rest)
}

/// The pairs and the end. What stands before them, from the line that counts them on, may be any
/// text.
pub(crate) fn finish(
    alloc: Global,
    draft: Draft,
    count: u32,
    after: Rest<'_>,
) -> Result<Cert, CertFault>
    ensures ok { IfOk result (λ cert. (text : List ℕ) (n : ℕ) → ReadsLines draft.version text n
        (PairsLine count ∷ []) after.entry.text.now after.entry.line
        → Whole draft.version (draft_lines draft) (content_lines (content_of cert)) text) }
    ensures err { IfErr result (λ e. (text : List ℕ) (n : ℕ) → ReadsLines draft.version text n
        (PairsLine count ∷ []) after.entry.text.now after.entry.line
        → FaultFrom draft.version e n (draft_state draft) text) }
{
    let (pairs, last) = pair_lines(alloc, draft.version, count, after)?;
    let rest = end_line(draft.version, last)?;
    if !rest.text.is_empty() {
        return Err(CertFault::At {
            code: CertCode::TextAfterEnd,
            line: rest.line,
        });
    }
    let Draft {
        pieces,
        parcels,
        exact,
        stage: _,
        triangles: _,
        flats: _,
        version: _,
        scratch: _,
    } = draft;
    let pieces = without_spare(pieces)?;
    let parcels = without_spare(parcels)?;
    let exact = without_spare(exact)?;
    Ok(cert_of(pieces, parcels, exact, pairs))
}

/// The next block, or the line that counts the pairs.
pub(crate) fn next_block<'a>(
    alloc: Global,
    draft: &mut Draft,
    rest: Rest<'a>,
) -> Result<Progress<'a>, CertFault>
    ensures ok { IfOk result
        (λ t. Progressed draft.old draft.new t rest.entry.text.now rest.entry.line) }
    ensures err { IfErr result (λ e. FaultFrom draft.old.version e rest.entry.line
        (draft_state draft.old) rest.entry.text.now) }
{
    let (head, after) = head_at(alloc, draft.version, draft.stage, rest)?;
    match head {
        Head::Piece(id, triangles, flats) => {
            let left = piece_block(alloc, draft, id, triangles, flats, rest, after)?;
            Ok(Progress::More(left))
        }
        Head::Flats(owner, id, flats) => {
            let left = flat_block(alloc, draft, owner, id, flats, rest, after)?;
            Ok(Progress::More(left))
        }
        Head::Pairs(count) => Ok(Progress::Pairs(count, after)),
    }
}
