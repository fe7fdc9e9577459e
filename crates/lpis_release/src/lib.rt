//! Releases: parcels, pieces of land cover and classes, joined by their identifiers; whether rows of
//! two releases are equal, and copies of rows.
//!
//! The layer above may cite: a Release is that of its three texts; rows are equal exactly where they
//! are the same parcel, piece, class or polygon; a copy is the row.
//! Begin at `specs/Release.antt`, then `src/reading.rt`.
#![tactic(auto)]

mod copies;
mod equality;
mod groups;
mod joins;
pub mod laws;
mod parcel;
mod pieces;
mod reading;
mod release;
mod weighted;

pub use copies::{copy_parcel, copy_pieces_of};
pub use equality::{are_pieces_of, is_same_class, is_same_polygon};
pub use parcel::{Parcel, Parcels};
pub use pieces::{PiecesOf, pieces_at, pieces_of};
pub use reading::read_release;
pub use release::Release;
pub use weighted::{weighted2, weighted2_at};
