//! The seam of a country: whether its next region fits to those that were read and let go.
//!
//! The layer above may cite: what a region owes those before it: the first fault at the seam, or
//! the state that goes on; regions without one make a sound map, whose parcels the end of the seam
//! alone gives as `Joined`.
//! Begin at `specs/Faults.antt`, then `src/seam.rt`.
#![tactic(auto)]

mod classes;
mod fault;
mod identifiers;
mod joined;
mod keeping;
mod kept;
pub mod laws;
mod seam;
mod testing;
mod tiles;

pub use fault::{SeamCode, SeamFault, classes_code};
pub use joined::Joined;
pub use kept::KeptRow;
pub use seam::OpenSeam;
