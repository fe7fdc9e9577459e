//! The points in strips, and in each by y.

ghost use Rattle.std.specs.Prelude.{◌≡◌, ◌≤◌, All, IfOk, length};
ghost use Rattle.lpis_tables.specs.Table.{most_rows};
ghost use Rattle.lpis_places.specs.Numbers.{parts};
ghost use Rattle.lpis_places.specs.private.Slots.{AreAscending, HasSlots, IsOrder, StartsAt};
ghost use Rattle.lpis_places.specs.private.Slots.{stands_before};
ghost use Rattle.lpis_places.specs.private.Strips.{IsInStrip};

use crate::given::GivenPoint;
use crate::grid::Grid;
use crate::reach::Reach;
use crate::spot::Spot;
use crate::strips::{grid_of, strip_at};
use std::alloc::{AllocError, Global};
use std::marker::Model;

/// Where a row of the table has its point, and in which strip that is.
#[derive(Clone, Copy, Debug)]
pub(crate) struct Slot {
    /// The row, from 0.
    pub row: u32,
    pub strip: u32,
    pub spot: Spot,
}

/// The points of a table in the order of its rows, and beside it in order by strip and y. Contracts
/// see their list.
#[derive(Drop)]
pub struct Points {
    alloc: Global,
    given: Vec<GivenPoint>,
    grid: Grid,
    slots: Vec<Slot>,
}

impl Model for Points {
    ghost use Rattle.std.specs.Prelude.{List};
    ghost use Rattle.lpis_places.specs.Points.{Given};
    ghost use Rattle.lpis_places.specs.private.Slots.{IsOrder};

    ghost Value = { List Given };

    ghost view = { λ p. p.given.items };

    ghost invariant = { λ p. IsOrder p.given.items p.grid p.slots.items };
}

/// A slot for each of these points.
fn slots_of(alloc: Global, given: &[GivenPoint], grid: &Grid) -> Result<Vec<Slot>, AllocError>
    requires { length given.now ≤ most_rows }
    ensures slots { IfOk result (λ v. HasSlots given.now v.items) }
    ensures strips { IfOk result (λ v. All (IsInStrip grid.now) v.items) }
{
    let mut slots = Vec::with_capacity(alloc, given.len())?;
    for (i, point) in given.iter().enumerate() {
        let spot = point.spot();
        slots.push(Slot {
            row: i as u32,
            strip: strip_at(grid, spot),
            spot,
        })?;
    }
    Ok(slots)
}

/// Whether a slot is of an earlier strip, or of this one and below a height.
fn stands_before(slot: &Slot, strip: u64, height: i128) -> bool
    ensures { result ≡ stands_before slot.now strip height }
{
    let own = u64::from(slot.strip);
    own < strip || own == strip && (slot.spot.y as i128) < height
}

/// How many of these slots stand before the low side of a box in a strip. It is found by halving.
pub(crate) fn first_from(slots: &[Slot], strip: u64, reach: &Reach) -> usize
    requires { AreAscending slots.now }
    ensures { StartsAt slots.now strip reach.now.low result }
{
    slots.partition_point(|slot| stands_before(slot, strip, reach.low))
}

/// Whether a slot stands before the high side of a box in a strip.
pub(crate) fn is_before_top(slot: &Slot, strip: u64, reach: &Reach) -> bool
    ensures { result ≡ stands_before slot.now strip reach.now.high }
{
    stands_before(slot, strip, reach.high)
}

impl Points {
    /// The points in order.
    pub(crate) fn of(alloc: Global, given: Vec<GivenPoint>) -> Result<Points, AllocError>
        requires { length given.items ≤ most_rows }
        ensures { IfOk result (λ points. points ≡ given.items) }
    {
        let grid = grid_of(alloc, &given)?;
        let mut slots = slots_of(alloc, &given, &grid)?;
        slots.sort_unstable_by_key(|slot| (slot.strip, slot.spot.y));
        Ok(Points {
            alloc,
            given,
            grid,
            slots,
        })
    }

    /// The points in the order of the table's rows.
    pub fn as_slice(&self) -> &[GivenPoint]
        ensures { result.now ≡ self.now }
    {
        &self.given
    }

    /// The strips, and the points in order by strip and y.
    pub(crate) fn strips(&self) -> (&Grid, &[Slot])
        ensures { IsOrder self.now result.0.now result.1.now }
    {
        (&self.grid, &self.slots)
    }

    /// Their places are in millionths of a millimetre.
    pub(crate) fn are_in_parts(&self)
        ensures { All (λ g. g.at.d ≡ parts) self.now }
    {
        let _ = self.strips();
    }

    /// Where what is made of them is put.
    pub(crate) fn alloc(&self) -> Global {
        self.alloc
    }
}
