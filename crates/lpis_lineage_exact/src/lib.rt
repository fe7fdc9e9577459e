//! Exact lineage: what rows that are marked exact ask for, and what it says of the points of the
//! plane once it is shown.
//!
//! The layer above may cite: the parts that the exact groups of a change ask for, or the first old
//! shape that is not kept; what is shown of a sound map has exact lineage.
//! Begin at `specs/ExactLineage.antt`, then `src/asking.rt`.
#![tactic(auto)]

mod asking;
mod laws;
mod marked;
mod shapes;

pub use asking::{AskFault, wanted_parts};
pub use laws::{sound_maps_have_such_shapes, what_is_shown_has_exact_lineage};
