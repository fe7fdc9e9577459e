//! The blocks that marked rows ask for.

ghost use Rattle.std.specs.Prelude.{◌≡◌, ◌≤◌, ◌+◌, ◌↔◌, [], IfErr, IfOk, IfSome, IsSomeAnd};
ghost use Rattle.std.specs.Prelude.{IsTrue, length, map, sum_by};
ghost use Rattle.lpis_edge_sums.specs.Making.{polygons};
ghost use Rattle.lpis_checker.specs.ExactBlocks.{block_name, part_name};
ghost use Rattle.lpis_run_publish.specs.ExactAnswer.{AreFlatsOf, HasParts};
ghost use Rattle.lpis_run_publish.specs.private.Blocks.{IsOf, IsUnfilled};
ghost use Rattle.lpis_run_publish.specs.declared.blocks.BlockFault.{BlockFault};

use lpis_cert::{Cert, ExactBlock, MOST_FLATS};
use lpis_checker::ExactPart;
use lpis_cutter::exact_flats;
use lpis_edge_sums::{EdgeSum, are_flat, flats_have_corners};
use lpis_memory::Sequence;
use lpis_points::Triangle;
use lpis_rings::Polygon;
use lpis_tables::Id;
use std::alloc::{AllocError, AllocFailed, Global};

/// Why a certificate does not get the blocks.
#[derive(Drop)]
pub(crate) enum BlockFault {
    /// Memory ran out.
    Memory,
    /// For this part no flats are found, or more than a certificate may have.
    NoFlats { id: Id },
}

impl From<AllocError> for BlockFault {
    ghost from_gives = { λ _ e. e ≡ BlockFault.Memory };

    fn from(_e: AllocError) -> BlockFault {
        BlockFault::Memory
    }
}

impl<T: Drop> From<AllocFailed<T>> for BlockFault {
    ghost from_gives = { λ _ e. e ≡ BlockFault.Memory };

    fn from(_e: AllocFailed<T>) -> BlockFault {
        BlockFault::Memory
    }
}

/// How many flats the pieces and the parcels of a certificate have.
fn count_flats(cert: &Cert) -> usize
    ensures { result ≡ sum_by (λ p. length p.flats) cert.now.pieces
        + sum_by (λ p. length p.flats) cert.now.parcels }
{
    let mut count = 0;
    for piece in cert.pieces.as_slice() {
        count += piece.flats.as_slice().len();
    }
    for parcel in cert.parcels.as_slice() {
        count += parcel.flats.as_slice().len();
    }
    count
}

/// Polygons where they stand.
fn polygons_at(alloc: Global, parts: &[Polygon]) -> Result<Vec<&Polygon>, AllocError>
    ensures { IfOk result (λ v. polygons v.items ≡ parts.now) }
{
    let mut polygons = Vec::with_capacity(alloc, parts.len())?;
    for part in parts {
        polygons.push(part)?;
    }
    Ok(polygons)
}

/// Whether all three are so.
fn all_of(flat: bool, corners: bool, edges: bool) -> bool
    ensures { IsTrue result ↔ (IsTrue flat × IsTrue corners × IsTrue edges) }
{
    flat && corners && edges
}

/// Whether these flats make the parts up to the whole.
fn are_flats_of(alloc: Global, part: &ExactPart, flats: &[Triangle]) -> Result<bool, AllocError>
    ensures { IfOk result (λ b. IsTrue b ↔ AreFlatsOf part.now flats.now) }
{
    let polygons = polygons_at(alloc, part.parts.as_slice())?;
    let parts = polygons.as_slice();
    let mut sum = EdgeSum::new(alloc);
    let corners = flats_have_corners(alloc, &part.whole, parts, flats)?;
    let edges = sum.cancels(&part.whole, parts, flats)?;
    Ok(all_of(are_flat(flats), corners, edges))
}

/// Flats that make the parts up to the whole, if any are found: none where it takes none.
fn flats_of(alloc: Global, part: &ExactPart) -> Result<Option<Vec<Triangle>>, AllocError>
    ensures flats { IfOk result (λ o. IfSome o (λ v. AreFlatsOf part.now v.items)) }
    ensures none { IfOk result (λ o. AreFlatsOf part.now [] → IsSomeAnd o (λ v. v.items ≡ [])) }
{
    let none = Vec::new(alloc);
    if are_flats_of(alloc, part, none.as_slice())? {
        return Ok(Some(none));
    }
    let Some(found) = exact_flats(alloc, &part.whole, part.parts.as_slice())? else {
        return Ok(None);
    };
    if are_flats_of(alloc, part, found.as_slice())? {
        Ok(Some(found))
    } else {
        Ok(None)
    }
}

/// The block of a part, of so many flats at most.
fn block_of(alloc: Global, part: &ExactPart, most: usize) -> Result<ExactBlock, BlockFault>
    ensures name { IfOk result (λ b. block_name b ≡ part_name part.now) }
    ensures few { IfOk result (λ b. length b.flats ≤ most) }
    ensures shown { IfOk result (λ b. AreFlatsOf part.now b.flats) }
    ensures fault { IfErr result (IsUnfilled part.now) }
{
    let id = part.id.copy()?;
    let Some(flats) = flats_of(alloc, part)? else {
        return Err(BlockFault::NoFlats { id });
    };
    if flats.len() > most {
        return Err(BlockFault::NoFlats { id });
    }
    Ok(ExactBlock {
        merge: part.merge,
        id,
        flats: Sequence::new(flats),
    })
}

/// The blocks of parts, of so many flats together at most.
fn blocks_of(alloc: Global, parts: &[ExactPart], most: usize) -> Result<Vec<ExactBlock>, BlockFault>
    ensures names { IfOk result (λ v. map block_name v.items ≡ map part_name parts.now) }
    ensures few { IfOk result (λ v. sum_by (λ b. length b.flats) v.items ≤ most) }
    ensures fault { IfErr result (IsOf parts.now) }
{
    let mut blocks = Vec::with_capacity(alloc, parts.len())?;
    let mut left = most;
    for part in parts {
        let block = block_of(alloc, part, left)?;
        left -= block.flats.as_slice().len();
        blocks.push(block)?;
    }
    Ok(blocks)
}

/// A certificate with the blocks of these parts in place of its own.
pub(crate) fn with_blocks(
    alloc: Global,
    cert: Cert,
    parts: &[ExactPart],
) -> Result<Cert, BlockFault>
    ensures made { IfOk result (λ made. HasParts cert made
        × (map block_name made.exact ≡ map part_name parts.now)) }
    ensures fault { IfErr result (IsOf parts.now) }
{
    let taken = count_flats(&cert);
    let exact = blocks_of(alloc, parts, MOST_FLATS as usize - taken)?;
    let Cert {
        pieces,
        parcels,
        pairs,
        ..
    } = cert;
    Ok(Cert {
        pieces,
        parcels,
        exact: Sequence::new(exact),
        pairs,
    })
}
