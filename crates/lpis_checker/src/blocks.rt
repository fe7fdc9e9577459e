//! The first exact block at which a condition fails.

ghost use Rattle.std.specs.Prelude.{◌≡◌, ◌↔◌, ◌+◌, ⊤, IsTrue, IfOk};
ghost use Rattle.lpis_edge_sums.specs.Making.{EdgesCancel, FlatsHaveCorners, polygons};
ghost use Rattle.lpis_checker.specs.ExactBlocks.{OnBlock, block_name, order_of, part_name};
ghost use Rattle.lpis_checker.specs.private.ExactSearches.{ExactBelow, FindsExact};
ghost use Rattle.lpis_checker.specs.declared.exact.ExactCondition.TheVariants.{Edges};

use crate::exact::{ExactCondition, ExactPart, FailingBlock};
use crate::places::{Places, first_place};
use lpis_cert::ExactBlock;
use lpis_edge_sums::{EdgeSum, are_flat, flats_have_corners};
use lpis_points::Triangle;
use lpis_rings::Polygon;
use std::alloc::{AllocError, Global};

/// Polygons where they stand.
fn polygons_at(alloc: Global, parts: &[Polygon]) -> Result<Vec<&Polygon>, AllocError>
    ensures { IfOk result (λ v. polygons v.items ≡ parts.now) }
{
    let mut polygons = Vec::with_capacity(alloc, parts.len())?;
    for part in parts {
        polygons.push(part)?;
    }
    Ok(polygons)
}

/// Whether a block has the kind and the identifier of a part.
fn is_named(block: &ExactBlock, part: &ExactPart) -> bool
    ensures { IsTrue result ↔ (block_name block.now ≡ part_name part.now) }
{
    block.merge == part.merge && block.id == part.id
}

/// Whether each corner of flats is a point of the rings of a part's whole or of its parts.
fn has_corners_of_whole(
    alloc: Global,
    part: &ExactPart,
    flats: &[Triangle],
) -> Result<bool, AllocError>
    ensures { IfOk result (λ b. IsTrue b
        ↔ FlatsHaveCorners part.now.whole part.now.parts flats.now) }
{
    let parts = polygons_at(alloc, part.parts.as_slice())?;
    flats_have_corners(alloc, &part.whole, parts.as_slice(), flats)
}

/// Whether the edges of a part's whole have the net counts of those of its parts and flats.
fn is_made_up(
    alloc: Global,
    sum: &mut EdgeSum,
    part: &ExactPart,
    flats: &[Triangle],
) -> Result<bool, AllocError>
    ensures { IfOk result (λ b. IsTrue b ↔ EdgesCancel part.now.whole part.now.parts flats.now) }
{
    let parts = polygons_at(alloc, part.parts.as_slice())?;
    sum.cancels(&part.whole, parts.as_slice(), flats)
}

impl Places for ExactCondition {
    type Item = ExactPart;

    type Part = ExactBlock;

    ghost holds = { λ q x b. OnBlock q x b };

    ghost stands = { λ q k x. ⊤ };

    fn holds_of(
        &self,
        alloc: Global,
        sum: &mut EdgeSum,
        _index: usize,
        part: &ExactPart,
        block: &ExactBlock,
    ) -> Result<bool, AllocError> {
        let flats = block.flats.as_slice();
        match self {
            ExactCondition::Names => Ok(is_named(block, part)),
            ExactCondition::Flats => Ok(are_flat(flats)),
            ExactCondition::Corners => has_corners_of_whole(alloc, part, flats),
            ExactCondition::Edges => is_made_up(alloc, sum, part, flats),
        }
    }
}

/// The first block at which a condition fails, with the condition.
fn failing_block(
    alloc: Global,
    blocks: &[ExactBlock],
    parts: &[ExactPart],
    condition: ExactCondition,
) -> Result<Option<FailingBlock>, AllocError>
    requires { ExactBelow blocks.now parts.now (order_of condition) }
    ensures { IfOk result (λ o. FindsExact blocks.now parts.now (order_of condition + 1) o) }
{
    match first_place(alloc, &condition, parts, blocks)? {
        Some(index) => Ok(Some(FailingBlock { condition, index })),
        None => Ok(None),
    }
}

/// The fault of the lowest code.
pub(crate) fn first_failing_block(
    alloc: Global,
    blocks: &[ExactBlock],
    parts: &[ExactPart],
) -> Result<Option<FailingBlock>, AllocError>
    ensures { IfOk result (λ o. FindsExact blocks.now parts.now (order_of Edges + 1) o) }
{
    if let Some(found) = failing_block(alloc, blocks, parts, ExactCondition::Names)? {
        return Ok(Some(found));
    }
    if let Some(found) = failing_block(alloc, blocks, parts, ExactCondition::Flats)? {
        return Ok(Some(found));
    }
    if let Some(found) = failing_block(alloc, blocks, parts, ExactCondition::Corners)? {
        return Ok(Some(found));
    }
    failing_block(alloc, blocks, parts, ExactCondition::Edges)
}
