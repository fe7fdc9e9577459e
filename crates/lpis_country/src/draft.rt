//! A plan that is being read.

ghost use Rattle.std.specs.Prelude.{◌≡◌, [], ◌∷◌, ◌++◌, IfOk, IfSome, option_map, length, List};
ghost use Rattle.lpis_country.specs.Tiling.{frame as frame_spec};
ghost use Rattle.lpis_country.specs.CountryText.{TreeLine, TreeLineFits};
ghost use Rattle.lpis_country.specs.Faults.{owing_after, owing_first, owing_with, where_owed};
ghost use Rattle.lpis_country.specs.private.Begun.{west_of, east_of, south_of, north_of};
ghost use Rattle.lpis_country.specs.private.Drafts.{IsDraftOf, IsDraftWith, owing_of};
ghost use Rattle.lpis_country.specs.private.Lines.{line_read};

use crate::frame;
use crate::line::{Line, line_of};
use crate::names::Names;
use crate::plan::MOST_REGIONS;
use crate::rooms::Rooms;
use lpis_points::Box4;
use std::alloc::{AllocError, Global};

/// The regions so far, and the rectangles that further lines are to cut.
#[derive(Drop)]
pub(crate) struct Draft {
    pub names: Names,
    pub tiles: Vec<Box4>,
    pub rooms: Rooms,
}

fn west(b: Box4, x: i64) -> Box4
    ensures { result ≡ west_of b x }
{
    Box4 {
        x0: b.x0,
        y0: b.y0,
        x1: b.x1.min(x),
        y1: b.y1,
    }
}

fn east(b: Box4, x: i64) -> Box4
    ensures { result ≡ east_of b x }
{
    Box4 {
        x0: b.x0.max(x),
        y0: b.y0,
        x1: b.x1,
        y1: b.y1,
    }
}

fn south(b: Box4, y: i64) -> Box4
    ensures { result ≡ south_of b y }
{
    Box4 {
        x0: b.x0,
        y0: b.y0,
        x1: b.x1,
        y1: b.y1.min(y),
    }
}

fn north(b: Box4, y: i64) -> Box4
    ensures { result ≡ north_of b y }
{
    Box4 {
        x0: b.x0,
        y0: b.y0.max(y),
        x1: b.x1,
        y1: b.y1,
    }
}

impl Draft {
    /// Before the first line.
    pub(crate) fn new(alloc: Global) -> Result<Draft, AllocError>
        ensures owing { IfOk result (λ d. owing_of d ≡ owing_first) }
        ensures begun { IfOk result (λ d. IsDraftOf [] d) }
    {
        Ok(Draft {
            names: Names::new(alloc),
            tiles: Vec::new(alloc),
            rooms: Rooms::new(alloc, frame())?,
        })
    }

    /// With two parts in place of one.
    fn cut(mut self, first: Box4, second: Box4) -> Result<Draft, AllocError>
        ensures names { IfOk result (λ d. d.names ≡ self.names) }
        ensures tiles { IfOk result (λ d. d.tiles.items ≡ self.tiles.items) }
        ensures rooms { IfOk result (λ d. d.rooms ≡ first ∷ second ∷ self.rooms) }
    {
        self.rooms.push(second)?;
        self.rooms.push(first)?;
        Ok(self)
    }

    /// With a region more.
    fn region(mut self, alloc: Global, name: &str, tile: Box4) -> Result<Draft, AllocError>
        ensures names { IfOk result (λ d. d.names ≡ self.names ++ name.now ∷ []) }
        ensures tiles { IfOk result (λ d. d.tiles.items ≡ self.tiles.items ++ tile ∷ []) }
        ensures rooms { IfOk result (λ d. d.rooms ≡ self.rooms) }
    {
        self.names = self.names.with(alloc, name)?;
        self.tiles.push(tile)?;
        Ok(self)
    }

    /// With what a line says, if it can stand.
    fn with_line(mut self, alloc: Global, line: Line<'_>) -> Result<Option<Draft>, AllocError>
        ensures owing { IfOk result (λ o. option_map owing_of o
            ≡ where_owed (length self.rooms) (owing_after (owing_of self) (line_read line.entry))) }
        ensures begun { IfOk result (λ o. IfSome o (λ d. (said : List TreeLine)
            → TreeLineFits (line_read line.entry) → IsDraftOf said self
            → IsDraftOf (said ++ line_read line.entry ∷ []) d)) }
    {
        let Some(room) = self.rooms.pop() else {
            return Ok(None);
        };
        match line {
            Line::X(x) => Ok(Some(self.cut(west(room, x), east(room, x))?)),
            Line::Y(y) => Ok(Some(self.cut(south(room, y), north(room, y))?)),
            Line::Region(name) => {
                if self.names.has(name) || self.names.len() >= MOST_REGIONS {
                    return Ok(None);
                }
                Ok(Some(self.region(alloc, name, room)?))
            }
        }
    }

    /// With a line, if it can stand.
    pub(crate) fn grown(self, alloc: Global, line: &[u8]) -> Result<Option<Draft>, AllocError>
        ensures owing { IfOk result (λ o. option_map owing_of o
            ≡ owing_with (owing_of self) line.now) }
        ensures begun { IfOk result (λ o. IfSome o (λ d. IsDraftWith self line.now d)) }
    {
        match line_of(alloc, line)? {
            None => Ok(None),
            Some(said) => self.with_line(alloc, said),
        }
    }
}
