//! The places of points in a release.

ghost use Rattle.std.specs.Prelude.{◌≡◌, ◌<◌, ◌++◌, ◌∷◌, [], ◌⊎◌, All, Contains, IfOk, List, OnOk};
ghost use Rattle.std.specs.Prelude.{false, length};
ghost use Rattle.lpis_tables.specs.declared.piece.Piece.{Piece as OfPiece};
ghost use Rattle.lpis_checker.specs.SoundMap.{IsSoundMap};
ghost use Rattle.lpis_places.specs.Places.{AreFoundIn, AreKept};
ghost use Rattle.lpis_places.specs.Points.{Given};
ghost use Rattle.lpis_places.specs.private.Insides.{drawn_members};
ghost use Rattle.lpis_places.specs.private.Reaches.{IsBoxed};
ghost use Rattle.lpis_places.specs.private.Slots.{AreAscending, HasSlots, IsSlot};
ghost use Rattle.lpis_places.specs.private.Visits.{AreMet, AreTouched, AreVisited, IsSettled};
ghost use Rattle.lpis_places.specs.private.Visits.{IsStripSettled};

use crate::edges::{Edge, draw};
use crate::index::{Points, Slot, first_from, is_before_top};
use crate::place::Place;
use crate::reach::{Reach, is_in_width, scaled_box};
use crate::sifting::{MOST_HALVINGS, sift};
use crate::strips::{first_met, last_met};
use lpis_country::is_region;
use lpis_release::Release;
use lpis_tables::Piece;
use std::alloc::{AllocError, Global};

/// Whether a slot's point is in the width of a box and has no place.
fn is_met(reach: &Reach, slot: &Slot, found: &[Option<Place>]) -> bool
    requires { slot.now.row < length found.now }
    ensures { (ps : List Given) (k : OfPiece) → IsSlot ps slot.now → IsBoxed k reach.now
        → result ≡ false → IsSettled k ps found.now slot.now.row }
{
    is_in_width(reach, slot.spot) && found[slot.row as usize].is_none()
}

/// Puts such a slot with those that were met.
fn meet(
    reach: &Reach,
    slot: &Slot,
    found: &[Option<Place>],
    met: &mut Vec<Slot>,
) -> Result<(), AllocError>
    requires { slot.now.row < length found.now }
    ensures all { (ps : List Given) (k : OfPiece) → IsSlot ps slot.now → IsBoxed k reach.now
        → OnOk result (Contains met.new.items slot.now ⊎ IsSettled k ps found.now slot.now.row) }
    ensures only { OnOk result ((met.new.items ≡ met.old.items)
        ⊎ (met.new.items ≡ met.old.items ++ slot.now ∷ [])) }
{
    if !is_met(reach, slot, found) {
        return Ok(());
    }
    met.push(*slot)?;
    Ok(())
}

/// Gathers the slots of a strip whose points are in a box and have no place.
fn gather(
    reach: &Reach,
    slots: &[Slot],
    strip: u64,
    found: &[Option<Place>],
    met: &mut Vec<Slot>,
) -> Result<(), AllocError>
    requires ascend { AreAscending slots.now }
    requires within { (ps : List Given) × HasSlots ps slots.now
        × (length found.now ≡ length ps) }
    ensures only { (ps : List Given) → HasSlots ps slots.now
        → OnOk result (All (IsSlot ps) met.new.items) }
    ensures all { (ps : List Given) (k : OfPiece) → HasSlots ps slots.now → IsBoxed k reach.now
        → OnOk result (AreMet k ps slots.now found.now strip met.new.items) }
{
    met.clear();
    for k in first_from(slots, strip, reach)..slots.len() {
        let slot = &slots[k];
        if !is_before_top(slot, strip, reach) {
            return Ok(());
        }
        meet(reach, slot, found, met)?;
    }
    Ok(())
}

/// Looks at the points of a strip for those that a piece contains.
fn visit_strip(
    alloc: Global,
    piece: &Piece,
    edges: &[Edge],
    reach: &Reach,
    slots: &[Slot],
    strip: u64,
    met: &mut Vec<Slot>,
    found: &mut [Option<Place>],
) -> Result<(), AllocError>
    requires boxed { IsBoxed piece.now reach.now }
    requires drawn { edges.now ≡ drawn_members piece.now.polygon }
    requires ascend { AreAscending slots.now }
    requires within { (ps : List Given) × HasSlots ps slots.now
        × (length found.old ≡ length ps) }
    ensures touched { (ps : List Given) → HasSlots ps slots.now
        → AreTouched piece.now ps found.old found.new }
    ensures settled { (ps : List Given) → HasSlots ps slots.now
        → OnOk result (IsStripSettled piece.now ps slots.now found.new strip) }
{
    gather(reach, slots, strip, found, met)?;
    sift(alloc, piece, edges, false, met, MOST_HALVINGS, found)
}

/// The edges of a piece, and its box.
fn box_and_edges(
    release: &Release,
    piece: &Piece,
    edges: &mut Vec<Edge>,
) -> Result<Reach, AllocError>
    requires sound { IsSoundMap release.now }
    requires among { Contains release.now.pieces piece.now }
    ensures boxed { IfOk result (IsBoxed piece.now) }
    ensures drawn { OnOk result (edges.new.items ≡ drawn_members piece.now.polygon) }
{
    draw(edges, &piece.polygon)?;
    Ok(scaled_box(&piece.polygon))
}

/// Looks at all points for those that a piece contains.
fn visit(
    release: &Release,
    piece: &Piece,
    points: &Points,
    edges: &mut Vec<Edge>,
    met: &mut Vec<Slot>,
    found: &mut [Option<Place>],
) -> Result<(), AllocError>
    requires sound { IsSoundMap release.now }
    requires among { Contains release.now.pieces piece.now }
    requires as_many { length found.old ≡ length points.now }
    ensures visited { OnOk result (AreVisited (piece.now ∷ []) points.now found.old found.new) }
    ensures touched { AreTouched piece.now points.now found.old found.new }
{
    let reach = box_and_edges(release, piece, edges)?;
    let (grid, slots) = points.strips();
    let first = first_met(grid, &reach);
    for strip in first..last_met(grid, &reach) + 1 {
        visit_strip(
            points.alloc(),
            piece,
            edges,
            &reach,
            slots,
            strip,
            met,
            found,
        )?;
    }
    Ok(())
}

/// Finds the places of points in a release that is a sound map. A point that has a place keeps it.
///
/// In each strip that its box meets, a piece looks at the points between the low and the high side
/// of the box alone. Where memory runs out, what was found so far is there.
pub fn locate_in(
    release: &Release,
    points: &Points,
    found: &mut [Option<Place>],
) -> Result<(), AllocError>
    requires sound { IsSoundMap release.now }
    requires as_many { length found.old ≡ length points.now }
    ensures found { OnOk result (AreFoundIn release.now points.now found.old found.new) }
    ensures kept { AreKept release.now points.now found.old found.new }
{
    // Pieces name parcels.
    is_region(release);
    points.are_in_parts();
    let mut edges = Vec::new(points.alloc());
    let mut met = Vec::new(points.alloc());
    for piece in release.pieces() {
        visit(release, piece, points, &mut edges, &mut met, found)?;
    }
    Ok(())
}
