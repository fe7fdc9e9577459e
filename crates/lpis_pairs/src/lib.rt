//! Pairs of triangles whose boxes are not apart.
//!
//! The layer above may cite: the law of `PairSource`.
//! Begin at `specs/NearPairs.antt`, then `src/sweep.rt`.
#![tactic(auto)]

mod all_pairs;
mod events;
mod extents;
mod halving;
mod holding;
mod joining;
mod near;
mod order;
mod overlaps;
mod source;
mod sweep;
mod taking;
mod triangle_at;

pub use all_pairs::AllPairs;
pub use source::{MOST_TRIANGLES, PairSource};
pub use sweep::Sweep;
