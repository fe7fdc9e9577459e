//! The cutter: from a release to a certificate, or to a place where the release is wrong.
//!
//! The layer above may cite: a refusal of `cut` means of the release what its variant means;
//! nothing of a certificate.
//! Begin at `specs/Refusals.antt`, then `src/cutting.rt`.
#![tactic(auto)]

mod crowding;
mod cutting;
mod exact;
mod fans;
mod fault;
mod near;
mod nested;
mod numbered;
mod ordering;
mod parts;
mod pieces;
mod searching;
mod separating;
mod separator;
mod telling;
mod uncut;
mod uneven;
mod unseparated;

pub use cutting::cut;
pub use exact::exact_flats;
pub use fault::{CutFault, Refusal};
pub use parts::ReleaseCut;
