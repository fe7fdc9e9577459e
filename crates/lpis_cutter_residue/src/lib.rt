//! Where a release may be wrong: what is left of a parcel's edges less those of its pieces, with
//! flats that make it up or points of the rooms that it bounds, and points that two triangles may
//! share.
//!
//! The layer above may cite: every call returns; nothing of a point or a flat.
//! Begin at `src/net.rt`.
//!
//! Nothing is promised of a point or a flat: who uses one tests it. Every call returns.
#![tactic(auto)]

mod cone;
mod faces;
mod fractions;
mod frames;
mod net;
mod overlap;
mod rooms;
mod shared;
mod trapezoid;
mod vectors;

pub use net::Net;
pub use rooms::Corners;
pub use shared::points_in_both;
