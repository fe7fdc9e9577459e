//! What the exact groups of a release ask for.

ghost use Rattle.std.specs.Prelude.{◌≡◌, ◌∷◌, [], true, false, ℕ, List, Some, flat_map, IfErr};
ghost use Rattle.std.specs.Prelude.{IfOk};
ghost use Rattle.std.specs.List.{AllZip};
ghost use Rattle.lpis_lineage.specs.Order.{IsAscending};
ghost use Rattle.lpis_lineage.specs.declared.exact.Group.{Group};
ghost use Rattle.lpis_lineage.specs.declared.row.Entry.{Entry};
ghost use Rattle.lpis_lineage.specs.declared.row.Row.{Row};
ghost use Rattle.lpis_release.specs.declared.parcel.Parcel.{Parcel};
ghost use Rattle.lpis_register_rows.specs.Shapes.{AreShapesOf, shape_ids};
ghost use Rattle.lpis_lineage_exact.specs.Asking.{AsksFor, HasShape, IsChangeTo, IsUnkept};
ghost use Rattle.lpis_lineage_exact.specs.Asking.{IsWanted, old_ids};
ghost use Rattle.lpis_lineage_exact.specs.Shapes.{shape_named};
ghost use Rattle.lpis_lineage_exact.specs.private.Lacking.{IsFirstLacking};
ghost use Rattle.lpis_lineage_exact.specs.declared.asking.AskFault.TheVariants.{Memory, NotKept};

use crate::marked::marked_groups;
use crate::shapes::shape_of;
use lpis_checker::ExactPart;
use lpis_lineage::{Change, Group};
use lpis_memory::Sequence;
use lpis_register_rows::KeptShape;
use lpis_rings::Polygon;
use lpis_tables::Id;
use std::alloc::{AllocError, AllocFailed, Global};
use thiserror::Error;

/// Why there are no parts.
#[derive(Debug, Drop, Error)]
pub enum AskFault {
    /// Memory ran out.
    #[error("out of memory")]
    Memory,
    /// The first old identifier, in the order of the groups, whose shape is not kept.
    #[error("no shape is kept of {}", .id.as_str())]
    NotKept { id: Id },
}

impl From<AllocError> for AskFault {
    ghost from_gives = { λ _ e. e ≡ Memory };

    fn from(_e: AllocError) -> AskFault {
        AskFault::Memory
    }
}

impl<T: Drop> From<AllocFailed<T>> for AskFault {
    ghost from_gives = { λ _ e. e ≡ Memory };

    fn from(_e: AllocFailed<T>) -> AskFault {
        AskFault::Memory
    }
}

/// A copy of the shape that is kept of an identifier.
fn kept_copy(alloc: Global, kept: &[KeptShape], id: &Id) -> Result<Polygon, AskFault>
    requires ascending { IsAscending (shape_ids kept.now) }
    ensures shape { IfOk result (λ x. shape_named kept.now id.now ≡ Some x) }
    ensures unkept { IfErr result (IsFirstLacking kept.now (id.now ∷ [])) }
{
    match shape_of(kept, id) {
        Some(shape) => Ok(shape.copy(alloc)?),
        None => Err(AskFault::NotKept { id: id.copy()? }),
    }
}

/// Copies of the shapes that are kept of identifiers, in their order.
fn kept_copies(alloc: Global, kept: &[KeptShape], ids: &[Id]) -> Result<Vec<Polygon>, AskFault>
    requires ascending { IsAscending (shape_ids kept.now) }
    ensures shapes { IfOk result (λ v. AllZip (HasShape (shape_named kept.now)) ids.now v.items) }
    ensures unkept { IfErr result (IsFirstLacking kept.now ids.now) }
{
    let mut shapes = Vec::with_capacity(alloc, ids.len())?;
    for id in ids {
        let shape = kept_copy(alloc, kept, id)?;
        shapes.push(shape)?;
    }
    Ok(shapes)
}

/// A copy of the new shape of an identifier.
fn new_copy(alloc: Global, new: &[KeptShape], id: &Id) -> Result<Polygon, AllocError>
    requires ascending { IsAscending (shape_ids new.now) }
    ensures { IfOk result (λ x. shape_named new.now id.now ≡ Some x) }
{
    match shape_of(new, id) {
        Some(shape) => shape.copy(alloc),
        None => Err(AllocError),
    }
}

/// Copies of the new shapes of identifiers, in their order.
fn new_copies(alloc: Global, new: &[KeptShape], ids: &[Id]) -> Result<Vec<Polygon>, AllocError>
    requires ascending { IsAscending (shape_ids new.now) }
    ensures { IfOk result (λ v. AllZip (HasShape (shape_named new.now)) ids.now v.items) }
{
    let mut shapes = Vec::with_capacity(alloc, ids.len())?;
    for id in ids {
        let shape = new_copy(alloc, new, id)?;
        shapes.push(shape)?;
    }
    Ok(shapes)
}

/// The part that a split asks for: the old shape, made up of its successors'.
fn split_part(
    alloc: Global,
    kept: &[KeptShape],
    new: &[KeptShape],
    group: &Group,
) -> Result<ExactPart, AskFault>
    requires ascending { IsAscending (shape_ids kept.now) }
    requires new_ascending { IsAscending (shape_ids new.now) }
    requires split { group.now.merge ≡ false }
    ensures part { IfOk result
        (IsWanted (shape_named kept.now) (shape_named new.now) group.now) }
    ensures unkept { IfErr result (IsFirstLacking kept.now (old_ids group.now)) }
{
    let whole = kept_copy(alloc, kept, &group.id)?;
    let parts = new_copies(alloc, new, group.others.as_slice())?;
    let id = group.id.copy()?;
    Ok(ExactPart {
        merge: false,
        id,
        whole,
        parts: Sequence::new(parts),
    })
}

/// The part that a merge asks for: the successor's shape, made up of its predecessors'.
fn merge_part(
    alloc: Global,
    kept: &[KeptShape],
    new: &[KeptShape],
    group: &Group,
) -> Result<ExactPart, AskFault>
    requires ascending { IsAscending (shape_ids kept.now) }
    requires new_ascending { IsAscending (shape_ids new.now) }
    requires merge { group.now.merge ≡ true }
    ensures part { IfOk result
        (IsWanted (shape_named kept.now) (shape_named new.now) group.now) }
    ensures unkept { IfErr result (IsFirstLacking kept.now (old_ids group.now)) }
{
    let parts = kept_copies(alloc, kept, group.others.as_slice())?;
    let whole = new_copy(alloc, new, &group.id)?;
    let id = group.id.copy()?;
    Ok(ExactPart {
        merge: true,
        id,
        whole,
        parts: Sequence::new(parts),
    })
}

/// The part that a group asks for.
fn part_of(
    alloc: Global,
    kept: &[KeptShape],
    new: &[KeptShape],
    group: &Group,
) -> Result<ExactPart, AskFault>
    requires ascending { IsAscending (shape_ids kept.now) }
    requires new_ascending { IsAscending (shape_ids new.now) }
    ensures part { IfOk result
        (IsWanted (shape_named kept.now) (shape_named new.now) group.now) }
    ensures unkept { IfErr result (IsFirstLacking kept.now (old_ids group.now)) }
{
    if group.merge {
        merge_part(alloc, kept, new, group)
    } else {
        split_part(alloc, kept, new, group)
    }
}

/// The parts that groups ask for, in their order.
fn parts_of(
    alloc: Global,
    kept: &[KeptShape],
    new: &[KeptShape],
    groups: &[Group],
) -> Result<Vec<ExactPart>, AskFault>
    requires ascending { IsAscending (shape_ids kept.now) }
    requires new_ascending { IsAscending (shape_ids new.now) }
    ensures parts { IfOk result (λ v. AllZip
        (IsWanted (shape_named kept.now) (shape_named new.now)) groups.now v.items) }
    ensures unkept { IfErr result (IsFirstLacking kept.now (flat_map old_ids groups.now)) }
{
    let mut parts = Vec::with_capacity(alloc, groups.len())?;
    for group in groups {
        let part = part_of(alloc, kept, new, group)?;
        parts.push(part)?;
    }
    Ok(parts)
}

/// The parts that the exact groups of a change ask for, in the order of the groups: of a split the
/// old shape is the whole, and its successors' are the parts; of a merge the successor's shape is
/// the whole, and its predecessors' are the parts. The old shapes are those that are kept of the
/// last release, and the new ones are those of the release's parcels; both ascend by identifier.
/// Where no row is marked nothing is built.
///
/// `NotKept` names the first old identifier whose shape is not kept: a split's own; a merge's
/// predecessors ascending, the successor itself among them where it is kept. A successor without a
/// new shape, as no change to the release has, is answered as `Memory`.
pub fn wanted_parts(
    alloc: Global,
    change: &Change,
    kept: &[KeptShape],
    new: &[KeptShape],
) -> Result<Vec<ExactPart>, AskFault>
    requires ascending { IsAscending (shape_ids kept.now) }
    requires new_ascending { IsAscending (shape_ids new.now) }
    ensures asks { (h : List Entry) (parcels : List Parcel) (rows : List Row)
        → IsChangeTo h parcels rows change.now → AreShapesOf parcels new.now
        → IfOk result (λ xs. (gs : List Group) × AsksFor h kept.now parcels rows gs xs.items) }
    ensures unkept { (h : List Entry) (parcels : List Parcel) (rows : List Row)
        → IsChangeTo h parcels rows change.now → IfErr result (λ fault. (id : List ℕ)
        → fault ≡ NotKept id → IsUnkept h kept.now parcels rows id) }
{
    let groups = marked_groups(alloc, change)?;
    parts_of(alloc, kept, new, groups.as_slice())
}
