//! Whether polygons and flat triangles make up another polygon: edges that cancel, by sums of signs,
//! and corners that are points of rings. And what it shows at every rational point.
//!
//! The layer above may cite: whether edges of polygons and flats cancel, and corners are there;
//! what makes up a whole turns as it.
//! Begin at `specs/Making.antt`, then `src/edge_sum.rt`.
#![tactic(auto)]

mod corners;
mod edge_sum;
pub mod laws;
mod point_set;
mod runs;
mod signed;

pub use corners::{flats_have_corners, has_corners};
pub use edge_sum::{EdgeSum, are_flat};
