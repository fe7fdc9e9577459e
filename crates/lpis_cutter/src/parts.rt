//! The parts of a certificate that is being made.

ghost use Rattle.std.specs.Prelude.{◌≡◌, ◌≤◌, ◌↔◌, ◌+◌, IfOk, IsTrue, length, sum_by};
ghost use Rattle.lpis_cert.specs.Limits.{most_flats, greatest_count};
ghost use Rattle.lpis_cutter.specs.Refusals.{most_pairs};
ghost use Rattle.lpis_points.specs.Triangles.{most_triangles};

use lpis_cert::{Cert, MOST_FLATS, MOST_TRIANGLES, PairLine, ParcelPart, PiecePart};
use lpis_cutter_mesh::Cut;
use lpis_memory::Sequence;
use lpis_points::Triangle;
use lpis_release::Release;
use lpis_tables::Id;
use std::alloc::{AllocError, Global};

/// How many triangles and flats a piece or a parcel has.
#[derive(Clone, Copy, Debug)]
pub(crate) struct Counts {
    pub(crate) triangles: usize,
    pub(crate) flats: usize,
}

/// The triangles and flats of pieces and parcels, one behind the other, and how many each has: no
/// more than a certificate. They are in one list as long as near pairs are looked for, which take
/// most memory.
#[derive(Drop)]
pub(crate) struct Parts {
    pub(crate) list: Vec<Triangle>,
    /// Those of pieces before those of parcels.
    flat_list: Vec<Triangle>,
    pub(crate) pieces: Vec<Counts>,
    parcels: Vec<Counts>,
    pub(crate) triangles: u64,
    pub(crate) flats: u64,
    pub ghost triangles_counted: { triangles ≡ length list.items },
    pub ghost flats_counted: { flats ≡ length flat_list.items },
    pub ghost triangles_few: { triangles ≤ most_triangles },
    pub ghost flats_few: { flats ≤ most_flats },
}

/// No parts yet.
pub(crate) fn no_parts(alloc: Global) -> Parts
    ensures triangles { result.triangles ≡ 0 }
    ensures flats { result.flats ≡ 0 }
{
    Parts {
        list: Vec::new(alloc),
        flat_list: Vec::new(alloc),
        pieces: Vec::new(alloc),
        parcels: Vec::new(alloc),
        triangles: 0,
        flats: 0,
    }
}

/// Whether a piece more leaves the parts within the limits of a certificate.
pub(crate) fn is_room_for(parts: &Parts, cut: &Cut) -> bool
    ensures { IsTrue result
        ↔ ((parts.now.triangles + length cut.now.triangles.items ≤ most_triangles)
        × (parts.now.flats + length cut.now.flats.items ≤ most_flats)) }
{
    let triangles = cut.triangles.len() as u64;
    let flats = cut.flats.len() as u64;
    triangles <= MOST_TRIANGLES - parts.triangles && flats <= MOST_FLATS - parts.flats
}

/// The parts with one piece more.
pub(crate) fn with_piece(parts: Parts, cut: &Cut) -> Result<Parts, AllocError>
    requires triangles { parts.triangles + length cut.now.triangles.items ≤ most_triangles }
    requires flats { parts.flats + length cut.now.flats.items ≤ most_flats }
    ensures triangles { IfOk result (λ more. more.triangles
        ≡ parts.triangles + length cut.now.triangles.items) }
    ensures flats { IfOk result (λ more. more.flats
        ≡ parts.flats + length cut.now.flats.items) }
{
    let Parts {
        mut list,
        mut flat_list,
        mut pieces,
        parcels,
        triangles,
        flats,
    } = parts;
    let more_triangles = cut.triangles.len() as u64;
    let more_flats = cut.flats.len() as u64;
    list.extend_from_slice(&cut.triangles)?;
    flat_list.extend_from_slice(&cut.flats)?;
    pieces.push(Counts {
        triangles: cut.triangles.len(),
        flats: cut.flats.len(),
    })?;
    Ok(Parts {
        list,
        flat_list,
        pieces,
        parcels,
        triangles: triangles + more_triangles,
        flats: flats + more_flats,
    })
}

/// The parts with one parcel more.
pub(crate) fn with_parcel(parts: Parts, own: &[Triangle]) -> Result<Parts, AllocError>
    requires { parts.flats + length own.now ≤ most_flats }
{
    let Parts {
        list,
        mut flat_list,
        pieces,
        mut parcels,
        triangles,
        flats,
    } = parts;
    let more = own.len() as u64;
    flat_list.extend_from_slice(own)?;
    parcels.push(Counts {
        triangles: 0,
        flats: own.len(),
    })?;
    Ok(Parts {
        list,
        flat_list,
        pieces,
        parcels,
        triangles,
        flats: flats + more,
    })
}

impl Parts {
    /// What goes over the triangles and flats of pieces, in their order.
    pub(crate) fn of_pieces(&self) -> Walk<'_> {
        Walk {
            counts: &self.pieces,
            triangles: &self.list,
            flats: &self.flat_list,
        }
    }

    /// What goes over the flats of parcels, in their order.
    pub(crate) fn of_parcels(&self) -> Walk<'_> {
        let mut before: usize = 0;
        for own in &self.pieces {
            before = before.saturating_add(own.flats);
        }
        Walk {
            counts: &self.parcels,
            triangles: &[],
            flats: self.flat_list.get(before..).unwrap_or(&[]),
        }
    }

    /// The same parts in memory of their own.
    pub(crate) fn copy(&self, alloc: Global) -> Result<Parts, AllocError> {
        let mut list = Vec::with_capacity(alloc, self.list.len())?;
        list.extend_from_slice(&self.list)?;
        let mut flat_list = Vec::with_capacity(alloc, self.flat_list.len())?;
        flat_list.extend_from_slice(&self.flat_list)?;
        let mut pieces = Vec::with_capacity(alloc, self.pieces.len())?;
        pieces.extend_from_slice(&self.pieces)?;
        let mut parcels = Vec::with_capacity(alloc, self.parcels.len())?;
        parcels.extend_from_slice(&self.parcels)?;
        Ok(Parts {
            list,
            flat_list,
            pieces,
            parcels,
            triangles: self.triangles,
            flats: self.flats,
        })
    }
}

/// What goes over the parts of pieces or of parcels.
#[derive(Clone, Copy, Debug)]
pub(crate) struct Walk<'a> {
    counts: &'a [Counts],
    triangles: &'a [Triangle],
    flats: &'a [Triangle],
}

/// The first items of a list, and those behind them.
fn parted(items: &[Triangle], count: usize) -> (&[Triangle], &[Triangle]) {
    match items.split_at_checked(count) {
        Some(both) => both,
        None => (items, &[]),
    }
}

impl<'a> Walk<'a> {
    /// The triangles and flats of the next one.
    pub(crate) fn next_part(&mut self) -> (&'a [Triangle], &'a [Triangle]) {
        let Some((own, rest)) = self.counts.split_first() else {
            return (&[], &[]);
        };
        self.counts = rest;
        let (triangles, later) = parted(self.triangles, own.triangles);
        self.triangles = later;
        let (flats, later_flats) = parted(self.flats, own.flats);
        self.flats = later_flats;
        (triangles, flats)
    }
}

/// Takes so many items from the end of a list.
fn last_of(items: &mut Vec<Triangle>, count: usize) -> Result<Vec<Triangle>, AllocError>
    ensures { IfOk result (λ own. length own.items + length items.new.items
        ≡ length items.old.items) }
{
    let at = items.len().saturating_sub(count);
    items.split_off(at)
}

/// The part of a piece, whose triangles and flats are the last ones.
fn last_piece(
    id: Id,
    counts: Counts,
    list: &mut Vec<Triangle>,
    flats: &mut Vec<Triangle>,
) -> Result<PiecePart, AllocError>
    ensures triangles { IfOk result (λ p. length p.triangles + length list.new.items
        ≡ length list.old.items) }
    ensures flats { IfOk result (λ p. length p.flats + length flats.new.items
        ≡ length flats.old.items) }
{
    let own = last_of(list, counts.triangles)?;
    let own_flats = last_of(flats, counts.flats)?;
    let _ = id.as_str();
    Ok(PiecePart {
        id,
        triangles: Sequence::new(own),
        flats: Sequence::new(own_flats),
    })
}

/// The part of a parcel, whose flats are the last ones.
fn last_parcel(id: Id, counts: Counts, flats: &mut Vec<Triangle>) -> Result<ParcelPart, AllocError>
    ensures { IfOk result (λ p. length p.flats + length flats.new.items
        ≡ length flats.old.items) }
{
    let own = last_of(flats, counts.flats)?;
    let _ = id.as_str();
    Ok(ParcelPart {
        id,
        flats: Sequence::new(own),
    })
}

/// The parts of pieces, from the last to the first; their triangles leave the list.
fn piece_parts(
    alloc: Global,
    ids: &mut Vec<Id>,
    counts: &[Counts],
    list: &mut Vec<Triangle>,
    flats: &mut Vec<Triangle>,
) -> Result<Vec<PiecePart>, AllocError>
    ensures triangles { IfOk result (λ parts. sum_by (λ p. length p.triangles) parts.items
        ≤ length list.old.items) }
    ensures flats { IfOk result (λ parts. sum_by (λ p. length p.flats) parts.items
        ≤ length flats.old.items) }
{
    let mut parts = Vec::with_capacity(alloc, counts.len())?;
    for own in counts.iter().rev() {
        let Some(id) = ids.pop() else { break };
        parts.push(last_piece(id, *own, list, flats)?)?;
        if parts.len() % 1024 == 0 {
            list.shrink_to_fit();
        }
    }
    parts.reverse();
    Ok(parts)
}

/// The same of parcels.
fn parcel_parts(
    alloc: Global,
    ids: &mut Vec<Id>,
    counts: &[Counts],
    flats: &mut Vec<Triangle>,
) -> Result<Vec<ParcelPart>, AllocError>
    ensures { IfOk result (λ parts. sum_by (λ p. length p.flats) parts.items
        + length flats.new.items ≤ length flats.old.items) }
{
    let mut parts = Vec::with_capacity(alloc, counts.len())?;
    for own in counts.iter().rev() {
        let Some(id) = ids.pop() else { break };
        parts.push(last_parcel(id, *own, flats)?)?;
    }
    parts.reverse();
    Ok(parts)
}

/// What a release was cut into: all that is in its certificate. It is made before the release is
/// let go, and the certificate from it afterwards.
#[derive(Drop)]
pub struct ReleaseCut {
    alloc: Global,
    parts: Parts,
    piece_ids: Vec<Id>,
    parcel_ids: Vec<Id>,
    lines: Vec<PairLine>,
    pub ghost lines_few: { length lines.items ≤ most_pairs },
}

/// The identifiers of a release's pieces.
fn piece_ids_of(alloc: Global, release: &Release) -> Result<Vec<Id>, AllocError> {
    let mut ids = Vec::with_capacity(alloc, release.pieces().len())?;
    for piece in release.pieces() {
        ids.push(piece.id.copy()?)?;
    }
    Ok(ids)
}

/// Those of its parcels.
fn parcel_ids_of(alloc: Global, release: &Release) -> Result<Vec<Id>, AllocError> {
    let mut ids = Vec::with_capacity(alloc, release.parcels().len())?;
    for parcel in release.parcels() {
        ids.push(parcel.id.copy()?)?;
    }
    Ok(ids)
}

/// All parts and pair lines, with the identifiers of a release.
pub(crate) fn cut_of_release(
    alloc: Global,
    release: &Release,
    parts: Parts,
    lines: Vec<PairLine>,
) -> Result<ReleaseCut, AllocError>
    requires { length lines.items ≤ most_pairs }
{
    let piece_ids = piece_ids_of(alloc, release)?;
    let parcel_ids = parcel_ids_of(alloc, release)?;
    Ok(ReleaseCut {
        alloc,
        parts,
        piece_ids,
        parcel_ids,
        lines,
    })
}

/// The certificate of a copy of all parts, and of pair lines, with the identifiers of a release.
pub(crate) fn trial_cert(
    alloc: Global,
    release: &Release,
    parts: &Parts,
    lines: Vec<PairLine>,
) -> Result<Cert, AllocError>
    requires { length lines.items ≤ greatest_count }
{
    let mut piece_ids = piece_ids_of(alloc, release)?;
    let mut parcel_ids = parcel_ids_of(alloc, release)?;
    let copy = parts.copy(alloc)?;
    cert_of(alloc, copy, &mut piece_ids, &mut parcel_ids, lines)
}

impl ReleaseCut {
    /// The certificate, without exact blocks. It has no more pair lines than leave its text short
    /// enough to be read. Nothing else is promised of it, which is to be checked.
    pub fn into_cert(self) -> Result<Cert, AllocError>
        ensures { IfOk result (λ cert. length cert.pairs ≤ most_pairs) }
    {
        let ReleaseCut {
            alloc,
            parts,
            mut piece_ids,
            mut parcel_ids,
            lines,
        } = self;
        cert_of(alloc, parts, &mut piece_ids, &mut parcel_ids, lines)
    }
}

/// The certificate of all parts and pair lines, without exact blocks.
fn cert_of(
    alloc: Global,
    parts: Parts,
    piece_ids: &mut Vec<Id>,
    parcel_ids: &mut Vec<Id>,
    lines: Vec<PairLine>,
) -> Result<Cert, AllocError>
    requires { length lines.items ≤ greatest_count }
    ensures { IfOk result (λ cert. cert.pairs ≡ lines.items) }
{
    let Parts {
        mut list,
        mut flat_list,
        pieces: piece_counts,
        parcels: parcel_counts,
        triangles: _,
        flats: _,
    } = parts;
    let parcels = parcel_parts(alloc, parcel_ids, &parcel_counts, &mut flat_list)?;
    let pieces = piece_parts(alloc, piece_ids, &piece_counts, &mut list, &mut flat_list)?;
    let exact = Vec::new(alloc);
    Ok(Cert {
        pieces: Sequence::new(pieces),
        parcels: Sequence::new(parcels),
        exact: Sequence::new(exact),
        pairs: Sequence::new(lines),
    })
}
