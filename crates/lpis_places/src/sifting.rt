//! The points that are in a piece, found by halving: the points of a half, and the edges that these
//! do not cross alike.

ghost use Rattle.std.specs.Prelude.{◌≡◌, ◌<◌, ◌++◌, ◌∷◌, [], All, IfOk, List, MatchOption, None};
ghost use Rattle.std.specs.Prelude.{OnOk, cond, false, length};
ghost use Rattle.lpis_checker.specs.SoundMap.{IsInPiece};
ghost use Rattle.lpis_places.specs.Points.{Given, rational_at};
ghost use Rattle.lpis_places.specs.private.Slots.{ArePut, IsSlot};
ghost use Rattle.lpis_places.specs.private.Visits.{AreSettled, AreTouched, DoTell, IsPlaceBy};
ghost use Rattle.lpis_places.specs.private.Visits.{IsSettled, IsTouched};

use crate::edges::{Edge, is_inside};
use crate::index::Slot;
use crate::place::Place;
use crate::spans::{Span, undecided};
use crate::spot::Spot;
use lpis_tables::Piece;
use std::alloc::{AllocError, Global};

/// So many points or edges are looked at one by one.
const FEW: usize = 16;

/// How often points are halved at most.
pub(crate) const MOST_HALVINGS: u32 = 64;

/// The place of a slot's point, if the piece contains it.
fn place_by(
    piece: &Piece,
    edges: &[Edge],
    odd: bool,
    slot: &Slot,
) -> Result<Option<Place>, AllocError>
    requires { DoTell piece.now odd edges.now slot.now }
    ensures { IfOk result (λ o. MatchOption o
        (IsInPiece (rational_at slot.now.spot) piece.now → ⊥)
        (IsPlaceBy (rational_at slot.now.spot) piece.now)) }
{
    if !is_inside(edges, odd, slot.spot) {
        return Ok(None);
    }
    Ok(Some(Place::of(piece)?))
}

/// It is found where it has none yet.
fn settle(
    piece: &Piece,
    edges: &[Edge],
    odd: bool,
    slot: &Slot,
    found: &mut Option<Place>,
) -> Result<(), AllocError>
    requires { DoTell piece.now odd edges.now slot.now }
    ensures touched { IsTouched piece.now (rational_at slot.now.spot) found.old found.new }
    ensures settled { OnOk result (found.new ≡ None
        → IsInPiece (rational_at slot.now.spot) piece.now → ⊥) }
{
    if found.is_none() {
        *found = place_by(piece, edges, odd, slot)?;
    }
    Ok(())
}

/// The same of the place that stands at the slot's row.
fn settle_row(
    piece: &Piece,
    edges: &[Edge],
    odd: bool,
    slot: &Slot,
    found: &mut [Option<Place>],
) -> Result<(), AllocError>
    requires tell { DoTell piece.now odd edges.now slot.now }
    requires within { slot.now.row < length found.old }
    ensures touched { (ps : List Given) → IsSlot ps slot.now
        → AreTouched piece.now ps found.old found.new }
    ensures settled { (ps : List Given) → IsSlot ps slot.now
        → OnOk result (IsSettled piece.now ps found.new slot.now.row) }
{
    settle(piece, edges, odd, slot, &mut found[slot.row as usize])
}

/// The same of each of these slots.
fn settle_rows(
    piece: &Piece,
    edges: &[Edge],
    odd: bool,
    slots: &[Slot],
    found: &mut [Option<Place>],
) -> Result<(), AllocError>
    requires tell { All (DoTell piece.now odd edges.now) slots.now }
    requires within { (ps : List Given) × All (IsSlot ps) slots.now
        × (length found.old ≡ length ps) }
    ensures touched { (ps : List Given) → All (IsSlot ps) slots.now
        → AreTouched piece.now ps found.old found.new }
    ensures settled { (ps : List Given) → All (IsSlot ps) slots.now
        → OnOk result (AreSettled piece.now ps found.new slots.now) }
{
    for slot in slots {
        settle_row(piece, edges, odd, slot, found)?;
    }
    Ok(())
}

/// The half of an x or y.
fn middle(low: i64, high: i64) -> i64 {
    ((low as i128 + high as i128) / 2) as i64
}

/// Whether a point is in the low half of a box, which is parted across its longer side.
fn is_low(span: &Span, spot: Spot) -> bool {
    if span.high.x.abs_diff(span.low.x) < span.high.y.abs_diff(span.low.y) {
        spot.y <= middle(span.low.y, span.high.y)
    } else {
        spot.x <= middle(span.low.x, span.high.x)
    }
}

/// Puts a slot in its half.
fn put(
    slot: &Slot,
    is_low: bool,
    low: &mut Vec<Slot>,
    high: &mut Vec<Slot>,
) -> Result<(), AllocError>
    ensures low { OnOk result (low.new.items
        ≡ cond is_low (low.old.items ++ slot.now ∷ []) low.old.items) }
    ensures high { OnOk result (high.new.items
        ≡ cond is_low high.old.items (high.old.items ++ slot.now ∷ [])) }
{
    if is_low {
        low.push(*slot)?;
    } else {
        high.push(*slot)?;
    }
    Ok(())
}

/// The slots of the low half of a box, and those of the other.
fn halves(alloc: Global, slots: &[Slot], span: &Span) -> Result<(Vec<Slot>, Vec<Slot>), AllocError>
    ensures { IfOk result (λ r. ArePut slots.now r.0.items r.1.items) }
{
    let mut low = Vec::new(alloc);
    let mut high = Vec::new(alloc);
    for slot in slots {
        put(slot, is_low(span, slot.spot), &mut low, &mut high)?;
    }
    Ok((low, high))
}

/// Whether points are looked at one by one, and no more in halves.
fn are_few(halvings: u32, points: usize, edges: usize) -> bool
    ensures { result ≡ false → 0 < halvings }
{
    if halvings == 0 {
        return true;
    }
    points <= FEW || edges <= FEW
}

/// Finds the places of the points of these slots that have none and that the piece contains.
pub(crate) fn sift(
    alloc: Global,
    piece: &Piece,
    edges: &[Edge],
    odd: bool,
    slots: &[Slot],
    halvings: u32,
    found: &mut [Option<Place>],
) -> Result<(), AllocError>
    requires tell { All (DoTell piece.now odd edges.now) slots.now }
    requires within { (ps : List Given) × All (IsSlot ps) slots.now
        × (length found.old ≡ length ps) }
    ensures touched { (ps : List Given) → All (IsSlot ps) slots.now
        → AreTouched piece.now ps found.old found.new }
    ensures settled { (ps : List Given) → All (IsSlot ps) slots.now
        → OnOk result (AreSettled piece.now ps found.new slots.now) }
{
    if are_few(halvings, slots.len(), edges.len()) {
        return settle_rows(piece, edges, odd, slots, found);
    }
    let Some(span) = Span::of(slots) else {
        return Ok(());
    };
    let (left, inside) = undecided(alloc, edges, odd, &span)?;
    let (low, high) = halves(alloc, slots, &span)?;
    sift(alloc, piece, &left, inside, &low, halvings - 1, found)?;
    sift(alloc, piece, &left, inside, &high, halvings - 1, found)
}
