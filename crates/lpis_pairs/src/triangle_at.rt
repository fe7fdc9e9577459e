//! Triangles in a list, or references to them.

use lpis_points::Triangle;

/// A triangle, or a reference to one.
pub trait HasTriangle {
    ghost use Rattle.lpis_points.specs.declared.triangle.Triangle.{Triangle};
    ghost use Rattle.std.specs.Prelude.{◌≡◌};

    ghost triangle: { Self → Triangle };

    /// The triangle.
    fn triangle(&self) -> &Triangle
        ensures { result.now ≡ triangle self.now };
}

impl HasTriangle for Triangle {
    ghost triangle = { λ t. t };

    fn triangle(&self) -> &Triangle {
        self
    }
}

impl<'a> HasTriangle for &'a Triangle {
    ghost triangle = { λ t. t.now };

    fn triangle(&self) -> &Triangle {
        *self
    }
}
