//! Rectangles that are still to be given out.

ghost use Rattle.std.specs.Prelude.{◌≡◌, ◌==◌, [], ◌∷◌, IfOk, OnOk, MatchOption, length};

use lpis_points::Box4;
use std::alloc::{AllocError, Global};
use std::marker::Model;

/// Rectangles, of which the last one that came is the first to go. Contracts see them with that one
/// in front.
#[derive(Drop)]
pub(crate) struct Rooms {
    boxes: Vec<Box4>,
}

impl Model for Rooms {
    ghost use Rattle.std.specs.Prelude.{List, reverse};
    ghost use Rattle.lpis_points.specs.declared.boxes.Box4.{Box4};

    ghost Value = { List Box4 };

    ghost view = { λ r. reverse r.boxes.items };
}

impl Rooms {
    /// No rectangle but this one.
    pub(crate) fn new(alloc: Global, first: Box4) -> Result<Rooms, AllocError>
        ensures { IfOk result (λ r. r ≡ first ∷ []) }
    {
        let mut rooms = Rooms {
            boxes: Vec::new(alloc),
        };
        rooms.push(first)?;
        Ok(rooms)
    }

    /// Whether there is none.
    pub(crate) fn is_empty(&self) -> bool
        ensures { result ≡ (length self.now == 0) }
    {
        self.boxes.is_empty()
    }

    /// Adds one.
    pub(crate) fn push(&mut self, b: Box4) -> Result<(), AllocError>
        ensures { OnOk result (self.new ≡ b ∷ self.old) }
    {
        self.boxes.push(b)?;
        Ok(())
    }

    /// Gives the last one out.
    pub(crate) fn pop(&mut self) -> Option<Box4>
        ensures { MatchOption result (self.old ≡ []) (λ b. self.old ≡ b ∷ self.new) }
    {
        self.boxes.pop()
    }
}
