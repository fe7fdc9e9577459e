//! A certificate for a release, or what it is refused for.

ghost use Rattle.std.specs.Prelude.{◌≤◌, ◌+◌, ◌<◌, IfErr, IfNone, IfOk, IfSome, length};
ghost use Rattle.lpis_cert.specs.declared.cert.Cert.{Cert};
ghost use Rattle.lpis_cert.specs.Limits.{greatest_count, most_flats};
ghost use Rattle.lpis_checker.specs.GoodCertificate.{IsGood};
ghost use Rattle.lpis_checker.specs.SoundMap.{IsSoundEverywhere};
ghost use Rattle.lpis_cutter.specs.Fans.{IsFan};
ghost use Rattle.lpis_cutter.specs.Refusals.{HasPoint, RefusesRightly, most_pairs};
ghost use Rattle.lpis_cutter.specs.private.Cutting.{Fits, HasFew, HasFewAt, IsTooMany};
ghost use Rattle.lpis_cutter.specs.private.Cutting.{IsUncutAt, ReportsIfAny};

use crate::crowding::{MOST_PAIRS, crowded};
use crate::exact::add_edges;
use crate::fault::{CutFault, Refusal};
use crate::near::near_pairs;
use crate::numbered::Numbered;
use crate::parts::{
    Parts, ReleaseCut, cut_of_release, is_room_for, no_parts, trial_cert, with_parcel, with_piece,
};
use crate::pieces::{Cutter, cut_of};
use crate::searching::{Budget, find_disagreement};
use crate::separating::{Separated, early_overlap, separate};
use crate::uncut::{refusal_of_piece, uncut_piece};
use crate::uneven::uneven_parcel;
use crate::unseparated::unseparated;
use lpis_cert::{MOST_FLATS, PairLine};
use lpis_checker::laws::a_good_certificate_shows_a_sound_map;
use lpis_cutter_mesh::Cut;
use lpis_cutter_residue::Net;
use lpis_points::Triangle;
use lpis_release::{Parcel, Release, pieces_of};
use lpis_tables::Piece;
use std::alloc::{AllocError, Global};

/// The cut of a piece, where one is found that leaves the parts within the limits.
fn cut_that_fits(
    cutter: &mut Cutter,
    parts: &Parts,
    piece: &Piece,
) -> Result<Option<Cut>, AllocError>
    ensures none { IfOk result (λ o. IfNone o (IsFan piece.now.polygon
        → IsTooMany piece.now.polygon parts.now.triangles parts.now.flats)) }
    ensures fits { IfOk result (λ o. IfSome o (Fits parts.now.triangles parts.now.flats)) }
    ensures few { IfOk result (λ o. IfSome o (λ cut. IsFan piece.now.polygon
        → HasFew piece.now.polygon cut)) }
{
    match cut_of(cutter, &piece.polygon)? {
        Some(cut) if is_room_for(parts, &cut) => Ok(Some(cut)),
        _ => Ok(None),
    }
}

/// The cut of the piece at an index, where one is found that leaves the parts within the limits.
fn next_cut(
    cutter: &mut Cutter,
    release: &Release,
    parts: &Parts,
    index: usize,
) -> Result<Option<Cut>, AllocError>
    requires within { index < length release.now.pieces }
    ensures none { IfOk result (λ o. IfNone o (IsUncutAt release.now index
        parts.now.triangles parts.now.flats)) }
    ensures fits { IfOk result (λ o. IfSome o (Fits parts.now.triangles parts.now.flats)) }
    ensures few { IfOk result (λ o. IfSome o (HasFewAt release.now index)) }
{
    cut_that_fits(cutter, parts, &release.pieces()[index])
}

/// The parts of all pieces.
fn cut_pieces(cutter: &mut Cutter, alloc: Global, release: &Release) -> Result<Parts, CutFault>
    ensures { IfErr result (RefusesRightly release.now) }
{
    let mut parts = no_parts(alloc);
    for index in 0..release.pieces().len() {
        match next_cut(cutter, release, &parts, index)? {
            Some(cut) => parts = with_piece(parts, &cut)?,
            None => {
                let refusal = refusal_of_piece(alloc, release, &parts, index)?;
                return Err(CutFault::Refused(refusal));
            }
        }
    }
    Ok(parts)
}

/// What cuts a release.
#[derive(Drop)]
struct Tools {
    cutter: Cutter,
    net: Net,
    budget: Budget,
}

/// Takes the edges of a parcel less those of its pieces.
fn load_parcel(net: &mut Net, release: &Release, parcel: &Parcel) -> Result<(), AllocError> {
    net.clear();
    add_edges(net, &parcel.polygon, 1)?;
    for piece in pieces_of(release, &parcel.id) {
        add_edges(net, &piece.polygon, -1)?;
    }
    net.settle()
}

/// A point at which the parcel at an index and its pieces disagree, looked for where its edges are
/// not even.
fn find_fault(
    tools: &mut Tools,
    release: &Release,
    index: usize,
) -> Result<Option<Refusal>, AllocError>
    ensures { IfOk result (ReportsIfAny release.now) }
{
    if tools.net.is_flat() || !tools.budget.search() {
        return Ok(None);
    }
    find_disagreement(
        &mut tools.cutter.mesher,
        &mut tools.budget,
        release,
        index,
        &tools.net,
    )
}

/// The flats of the parcel that was loaded, if there is room for them.
fn flats_that_fit(net: &Net, alloc: Global, flats: u64) -> Result<Option<Vec<Triangle>>, AllocError>
    requires { flats ≤ most_flats }
    ensures { IfOk result (λ o. IfSome o (λ own. flats + length own.items ≤ most_flats)) }
{
    let own = net.flats()?;
    if own.len() as u64 > MOST_FLATS - flats {
        return Ok(None);
    }
    Ok(Some(own))
}

/// The parts with the parcel that was loaded, and whether its flats make up what is left of it.
fn add_parcel(alloc: Global, net: &Net, parts: Parts) -> Result<(Parts, bool), AllocError> {
    let flats = parts.flats;
    match flats_that_fit(net, alloc, flats)? {
        Some(own) => Ok((with_parcel(parts, &own)?, net.is_flat())),
        None => Ok((with_parcel(parts, &[])?, false)),
    }
}

/// Parts of all pieces and parcels, and whether flats make up what is left of each parcel.
#[derive(Drop)]
struct Filled {
    parts: Parts,
    is_flat: bool,
}

/// The parts of all parcels, or a point of one.
fn fill_parcels(
    alloc: Global,
    tools: &mut Tools,
    release: &Release,
    parts: Parts,
) -> Result<Filled, CutFault>
    ensures { IfErr result (RefusesRightly release.now) }
{
    let mut parts = parts;
    let mut is_flat = true;
    for (index, parcel) in release.parcels().iter().enumerate() {
        load_parcel(&mut tools.net, release, parcel)?;
        if let Some(refusal) = find_fault(tools, release, index)? {
            return Err(CutFault::Refused(refusal));
        }
        let (more, has_flats) = add_parcel(alloc, &tools.net, parts)?;
        parts = more;
        is_flat = is_flat && has_flats;
    }
    Ok(Filled { parts, is_flat })
}

/// The separators of the near pairs of all triangles, or an overlap that was found.
fn separators(
    alloc: Global,
    budget: Budget,
    release: &Release,
    parts: &Parts,
) -> Result<Separated, AllocError>
    ensures { IfOk result (λ s. ReportsIfAny release.now s.found) }
{
    let numbered = Numbered::of(alloc, parts)?;
    let mut budget = budget.renewed();
    let found = early_overlap(alloc, &mut budget, release, &numbered)?;
    if found.is_some() {
        return Ok(Separated {
            lines: Vec::new(alloc),
            found,
            unseparated: None,
        });
    }
    let mut budget = budget.renewed();
    let near = near_pairs(alloc, &parts.list)?;
    separate(alloc, &mut budget, release, &numbered, &near)
}

/// What is refused of a release of which no point of a fault was found: a piece, a parcel, or two
/// triangles without a separator.
fn refusal_without_point(
    alloc: Global,
    release: &Release,
    parts: &Parts,
    is_flat: bool,
    pair: Option<(u32, u32)>,
) -> Result<Option<Refusal>, AllocError>
    ensures { IfOk result (ReportsIfAny release.now) }
{
    if !is_flat {
        let found = uneven_parcel(alloc, release, parts)?;
        if found.is_some() {
            return Ok(found);
        }
    }
    match pair {
        Some((i, j)) => unseparated_pair(alloc, release, parts, i, j),
        None => Ok(None),
    }
}

/// A piece of which the parts are no cut, or else that the triangles of two numbers have no
/// separator.
fn unseparated_pair(
    alloc: Global,
    release: &Release,
    parts: &Parts,
    i: u32,
    j: u32,
) -> Result<Option<Refusal>, AllocError>
    ensures { IfOk result (ReportsIfAny release.now) }
{
    let found = uncut_piece(alloc, release, parts)?;
    if found.is_some() {
        return Ok(found);
    }
    let cert = trial_cert(alloc, release, parts, Vec::new(alloc))?;
    unseparated(alloc, release, &cert, i as usize, j as usize)
}

/// A piece of which the parts are no cut, or else the pair that stands behind as many pair lines as
/// a certificate has.
fn crowded_pair(
    alloc: Global,
    release: &Release,
    parts: &Parts,
    lines: Vec<PairLine>,
) -> Result<Option<Refusal>, AllocError>
    requires { length lines.items ≤ greatest_count }
    ensures { IfOk result (ReportsIfAny release.now) }
{
    let found = uncut_piece(alloc, release, parts)?;
    if found.is_some() {
        return Ok(found);
    }
    let cert = trial_cert(alloc, release, parts, lines)?;
    crowded(alloc, release, &cert)
}

/// The pair lines where they are no more than a certificate has, or none where the parts do not
/// pass the check of parts, or else the pair behind so many.
fn lines_that_fit(
    alloc: Global,
    release: &Release,
    parts: &Parts,
    lines: Vec<PairLine>,
) -> Result<Vec<PairLine>, CutFault>
    ensures refused { IfErr result (RefusesRightly release.now) }
    ensures few { IfOk result (λ v. length v.items ≤ most_pairs) }
{
    if lines.len() <= MOST_PAIRS {
        return Ok(lines);
    }
    let mut lines = lines;
    lines.truncate(MOST_PAIRS + 1);
    match crowded_pair(alloc, release, parts, lines)? {
        Some(refusal) => Err(CutFault::Refused(refusal)),
        None => Ok(Vec::new(alloc)),
    }
}

/// These parts with the separators of their near pairs.
fn join(
    alloc: Global,
    budget: Budget,
    release: &Release,
    filled: Filled,
) -> Result<ReleaseCut, CutFault>
    ensures { IfErr result (RefusesRightly release.now) }
{
    let Filled { parts, is_flat } = filled;
    let Separated {
        lines,
        found,
        unseparated: pair,
    } = separators(alloc, budget, release, &parts)?;
    if let Some(refusal) = found {
        return Err(CutFault::Refused(refusal));
    }
    if let Some(refusal) = refusal_without_point(alloc, release, &parts, is_flat, pair)? {
        return Err(CutFault::Refused(refusal));
    }
    let few = lines_that_fit(alloc, release, &parts, lines)?;
    Ok(cut_of_release(alloc, release, parts, few)?)
}

/// What a release is cut into, or what it is refused for.
fn cut_release(alloc: Global, release: &Release) -> Result<ReleaseCut, CutFault>
    ensures { IfErr result (RefusesRightly release.now) }
{
    let mut tools = Tools {
        cutter: Cutter::new(alloc),
        net: Net::new(alloc),
        budget: Budget::new(),
    };
    let parts = cut_pieces(&mut tools.cutter, alloc, release)?;
    let filled = fill_parcels(alloc, &mut tools, release, parts)?;
    let budget = tools.budget;
    // Near pairs are what takes most memory.
    drop(tools);
    join(alloc, budget, release, filled)
}

/// Cuts a release: what makes a certificate of triangles on the corners that its pieces have, or
/// what it is refused for. Of the certificate no more is promised than that it has no more pair
/// lines than can be read again; it is to be checked.
///
/// A refusal says of the release what its variant says. Pieces that cannot be cut are refused
/// first, in order; then the first fault of which a point is found; then what shows no point: a
/// parcel that flats were not found for, two triangles that no edge keeps apart, and more near
/// pairs than a certificate has.
///
/// Each piece before the one that is named has a cut, and that one and those before it are not all
/// fans with at most 2,000,000 points together. The edges of the parcel that is named have other
/// net counts than those of its pieces, and each parcel before it is made up by its pieces. Two
/// triangles without an edge are of parts that pass `check_parts`, and so are those of a pair that
/// stands behind 32,000,000 near ones. A release of which a point is reported is not sound, so that
/// no certificate is good for it.
pub fn cut(alloc: Global, release: &Release) -> Result<ReleaseCut, CutFault>
    ensures tells { IfErr result (RefusesRightly release.now) }
    ensures unsound { IfErr result (λ e. HasPoint e → IsSoundEverywhere release.now → ⊥) }
    ensures no_certificate { IfErr result (λ e. HasPoint e → (c : Cert) → IsGood release.now c
        → ⊥) }
{
    // Its parcels' identifiers differ.
    let _ = release.parcels();
    a_good_certificate_shows_a_sound_map();
    cut_release(alloc, release)
}
