//! Rooms between edges, cut into triangles on the corners that are there.
//!
//! The layer above may cite: every call returns; nothing of a cut.
//! Begin at `src/sweep.rt`.
//!
//! Nothing is promised of a cut: who uses one checks it. Every call returns.
#![tactic(auto)]

mod boxes;
mod chains;
mod halt;
mod improve;
mod mesh;
mod mesher;
mod plane;
mod quads;
mod replacing;
mod sweep;
mod trade;

pub use mesher::{Cut, Mesher};
