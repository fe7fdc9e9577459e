//! Shapes of parcels.

ghost use Rattle.std.specs.Prelude.{◌≡◌, ◌↔◌, true, List, map, IfErr, IfOk, IfSome, IsTrue};
ghost use Rattle.std.specs.List.{AllByRecursion, AllZip, IsDistinct};
ghost use Rattle.lpis_tables.specs.Ids.{is_id, same_id};
ghost use Rattle.lpis_lineage.specs.Lineage.{last_live};
ghost use Rattle.lpis_lineage.specs.Order.{IsAscending};
ghost use Rattle.lpis_release.specs.Release.{parcel_ids};
ghost use Rattle.lpis_rings.specs.declared.polygon.Member.{Member};
ghost use Rattle.lpis_wkt.specs.Text.{PolygonText};
ghost use Rattle.lpis_register_rows.specs.declared.fault.RowsFault.TheVariants.{Unlawful};
ghost use Rattle.lpis_register_rows.specs.Shapes.{AreLive, AreShapesOf, IsSpelled};
ghost use Rattle.lpis_register_rows.specs.private.Known.{AreAmong, HasId, passed};
ghost use Rattle.lpis_register_rows.specs.Shapes.{IsTextOfShape};
ghost use Rattle.lpis_register_rows.specs.Shapes.{Shape};
ghost use Rattle.lpis_register_rows.specs.Shapes.{ShapesAre, TextsStand, shape_ids};
ghost use Rattle.lpis_register_rows.specs.Shapes.{parcel_shape as the_shape_of};

use crate::fault::RowsFault;
use crate::kept_shape::KeptShape;
use crate::known::read_id;
use crate::named::{ascend, sort};
use crate::rows::TextRow;
use crate::spelling::has_text;
use lpis_lineage::{History, IdSet};
use lpis_release::laws::tests_find_equal_rows;
use lpis_release::{Parcel, is_same_polygon};
use lpis_rings::Polygon;
use lpis_tables::Id;
use lpis_wkt::laws::function_of_text;
use lpis_wkt::{WktFault, read};
use std::alloc::{AllocError, Global};

/// The polygon that a text spells.
fn polygon_of(alloc: Global, text: &str) -> Result<Polygon, RowsFault>
    ensures spelled { IfOk result (PolygonText text.now) }
    ensures refused { IfErr result (λ e. e ≡ Unlawful → (members : List Member)
        → PolygonText text.now members → ⊥) }
{
    match read(alloc, text) {
        Ok(polygon) => Ok(polygon),
        Err(WktFault::Memory) => Err(RowsFault::Memory),
        Err(_) => Err(RowsFault::Unlawful),
    }
}

/// The shape of a text.
fn shape_of(alloc: Global, text: &TextRow) -> Result<KeptShape, RowsFault>
    ensures spelled { IfOk result (IsTextOfShape text.now) }
    ensures id { IfOk result HasId }
    ensures refused { IfErr result (λ e. e ≡ Unlawful → (shape : Shape)
        → IsTextOfShape text.now shape → HasId shape → ⊥) }
{
    let id = read_id(alloc, text.id.as_str())?;
    let polygon = polygon_of(alloc, text.wkt.as_str())?;
    Ok(KeptShape::new(alloc, id, polygon)?)
}

/// The shapes of texts, in their order. Each text is let go once it is read.
fn told_shapes(alloc: Global, texts: Vec<TextRow>) -> Result<Vec<KeptShape>, RowsFault>
    ensures spelled { IfOk result (λ v. AllZip IsTextOfShape texts.items v.items) }
    ensures ids { IfOk result (λ v. AllByRecursion HasId v.items) }
    ensures refused { IfErr result (λ e. e ≡ Unlawful → (order : List Shape)
        → AllZip IsTextOfShape texts.items order → AllByRecursion HasId order → ⊥) }
{
    let mut shapes = Vec::with_capacity(alloc, texts.len())?;
    for text in texts {
        let shape = shape_of(alloc, &text)?;
        shapes.push(shape)?;
    }
    Ok(shapes)
}

/// What is left of shapes once the first is passed, where it bears this identifier.
fn pass<'a>(shapes: &'a [KeptShape], id: &Id) -> &'a [KeptShape]
    ensures { result.now ≡ passed shapes.now id.now }
{
    match shapes.split_first() {
        Some((first, others)) if first.id() == id => others,
        _ => shapes,
    }
}

/// Whether the identifiers of shapes, which ascend, are among those of a set. The two are walked
/// side by side.
fn are_among(live: &IdSet, shapes: &[KeptShape]) -> bool
    requires ascending { IsAscending (shape_ids shapes.now) }
    ensures { IsTrue result ↔ AreAmong live.now shapes.now }
{
    let mut left = shapes;
    for id in live.iter() {
        left = pass(left, id);
    }
    left.is_empty()
}

/// Whether the identifiers of shapes, which ascend, are live in the last release.
fn are_live(history: &History, shapes: &[KeptShape]) -> bool
    requires ascending { IsAscending (shape_ids shapes.now) }
    ensures { IsTrue result ↔ AreAmong (last_live history.now) shapes.now }
{
    match history.releases().last() {
        Some(entry) => are_among(&entry.live, shapes),
        None => shapes.is_empty(),
    }
}

/// The shapes that texts keep beside a history, ascending by identifier; `Unlawful` exactly where
/// the texts may not be kept: one spells no polygon, or its identifier is not live, or stands
/// twice.
pub fn shapes_of(
    alloc: Global,
    texts: Vec<TextRow>,
    history: &History,
) -> Result<Vec<KeptShape>, RowsFault>
    ensures are { IfOk result (λ v. ShapesAre texts.items v.items) }
    ensures live { IfOk result (λ v. AreLive (last_live history.now) v.items) }
    ensures unlawful { IfErr result (λ e. e ≡ Unlawful
        → TextsStand texts.items (last_live history.now) → ⊥) }
{
    function_of_text();
    let mut shapes = told_shapes(alloc, texts)?;
    sort(&mut shapes);
    if !ascend(shapes.as_slice()) {
        return Err(RowsFault::Unlawful);
    }
    if !are_live(history, shapes.as_slice()) {
        return Err(RowsFault::Unlawful);
    }
    Ok(shapes)
}

/// The kept shape that is that of a parcel, where it is found: they ascend by identifier.
fn kept_shape_of<'a>(kept: &'a [KeptShape], parcel: &Parcel) -> Option<&'a KeptShape>
    ensures { IfSome result (λ shape. shape.now ≡ the_shape_of parcel.now) }
{
    match kept.binary_search_by(|shape| shape.id().cmp(&parcel.id)) {
        Ok(index) if is_shape_of(&kept[index], parcel) => Some(&kept[index]),
        _ => None,
    }
}

/// Whether a kept shape is that of a parcel: its identifier, and its polygon point by point.
fn is_shape_of(shape: &KeptShape, parcel: &Parcel) -> bool
    ensures { IsTrue result → shape.now ≡ the_shape_of parcel.now }
{
    tests_find_equal_rows();
    *shape.id() == parcel.id && is_same_polygon(shape.polygon(), &parcel.polygon)
}

/// The shape of a parcel: a copy of one that is kept, else one of its polygon.
fn shape_in(alloc: Global, parcel: &Parcel, kept: &[KeptShape]) -> Result<KeptShape, AllocError>
    ensures same { IfOk result (λ shape. shape ≡ the_shape_of parcel.now) }
    ensures id { IfOk result (λ shape. is_id shape.0 ≡ true) }
    ensures spelled { IfOk result IsSpelled }
{
    has_text(&parcel.polygon);
    let _ = parcel.id.as_str();
    match kept_shape_of(kept, parcel) {
        Some(shape) => shape.copy(),
        None => KeptShape::new(alloc, parcel.id.copy()?, parcel.polygon.copy(alloc)?),
    }
}

/// The shapes of parcels, in their order.
fn parcel_shapes(
    alloc: Global,
    parcels: &[Parcel],
    kept: &[KeptShape],
) -> Result<Vec<KeptShape>, AllocError>
    ensures same { IfOk result (λ v. v.items ≡ map the_shape_of parcels.now) }
    ensures live { IfOk result (λ v. AreLive (parcel_ids parcels.now) v.items) }
    ensures spelled { IfOk result (λ v. AllByRecursion IsSpelled v.items) }
{
    let mut shapes = Vec::with_capacity(alloc, parcels.len())?;
    for parcel in parcels {
        let shape = shape_in(alloc, parcel, kept)?;
        shapes.push(shape)?;
    }
    Ok(shapes)
}

/// The shapes of parcels, no two of one identifier, ascending by identifier. Kept ones that ascend
/// by identifier save memory, and change nothing else.
pub fn shapes_in(
    alloc: Global,
    parcels: &[Parcel],
    kept: &[KeptShape],
) -> Result<Vec<KeptShape>, AllocError>
    requires distinct { IsDistinct same_id (parcel_ids parcels.now) }
    ensures are { IfOk result (λ v. AreShapesOf parcels.now v.items) }
    ensures live { IfOk result (λ v. AreLive (parcel_ids parcels.now) v.items) }
    ensures spelled { IfOk result (λ v. AllByRecursion IsSpelled v.items) }
{
    let mut shapes = parcel_shapes(alloc, parcels, kept)?;
    sort(&mut shapes);
    Ok(shapes)
}
