//! Shapes that are kept.

ghost use Rattle.std.specs.Prelude.{◌≡◌, IfOk};

use lpis_rings::Polygon;
use lpis_tables::Id;
use std::alloc::{AllocError, Global};
use std::marker::Model;
use std::rc::Rc;

/// A shape that is kept: the identifier of a parcel, and its polygon. Contracts see the pair, and
/// say nothing of the memory that copies share.
#[derive(Drop)]
pub struct KeptShape {
    shape: Rc<(Id, Polygon), Global>,
}

impl Model for KeptShape {
    ghost use Rattle.lpis_register_rows.specs.Shapes.{Shape};

    ghost Value = { Shape };

    ghost view = { λ s. s.shape.value };
}

impl KeptShape {
    /// The shape of this identifier and this polygon.
    pub fn new(alloc: Global, id: Id, polygon: Polygon) -> Result<KeptShape, AllocError>
        ensures { IfOk result (λ shape. shape ≡ (id, polygon)) }
    {
        let shape = Rc::new(alloc, (id, polygon))?;
        Ok(KeptShape { shape })
    }

    /// The identifier of its parcel.
    pub fn id(&self) -> &Id
        ensures { result.now ≡ self.now.0 }
    {
        &self.shape.as_ref().0
    }

    /// Its polygon.
    pub fn polygon(&self) -> &Polygon
        ensures { result.now ≡ self.now.1 }
    {
        &self.shape.as_ref().1
    }

    /// An equal shape.
    pub fn copy(&self) -> Result<KeptShape, AllocError>
        ensures { IfOk result (λ shape. shape ≡ self.now) }
    {
        let shape = self.shape.clone()?;
        Ok(KeptShape { shape })
    }
}
