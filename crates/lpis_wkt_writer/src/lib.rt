//! Well-known text of polygons: [`write`] gives the text of a polygon, such as
//! `POLYGON((0.000 0.000,10.000 0.000,10.000 10.000,0.000 10.000,0.000 0.000))`. The grammar of
//! `lpis_wkt` reads it as that polygon, and no other.
//!
//! The layer above may cite: `write` is the text of a polygon, and the grammar reads it as that
//! polygon.
//! Begin at `specs/Text.antt`, then `src/writing.rt`.
#![tactic(auto)]

pub mod laws;
mod writing;

pub use writing::write;
