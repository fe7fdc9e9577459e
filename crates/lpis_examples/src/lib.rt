//! Examples of what the definitions mean, which people judge. Each is a law: a function that does
//! nothing else than to have its contract, which the prover checks.
//!
//! No crate stands on it: `docs/BELIEVE.md` shows them.
//! Begin at `src/plane.rt`.
#![tactic(auto, unfolding(lpis_points::specs::Plane::orient, lpis_points::specs::Plane::orient_at, lpis_points::specs::Plane::crossing, lpis_points::specs::Triangles::are_apart, lpis_rings::specs::Edges::shell_edges, lpis_rings::specs::Edges::hole_edges,))]

pub mod maps;
pub mod plane;
pub mod polygons;
pub mod releases;
pub mod triangles;
