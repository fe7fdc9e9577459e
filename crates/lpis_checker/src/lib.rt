//! The check of a release against a certificate.
//!
//! The layer above may cite: Ok exactly where the certificate is good; a `Yes` means a sound map;
//! `check_exact` Ok exactly where blocks show their wholes made up.
//! Begin at `specs/SoundMap.antt`, then `src/checking.rt`.
#![tactic(auto)]

mod blocks;
mod checking;
mod condition;
mod exact;
mod fault;
mod first_fault;
pub mod laws;
mod lines;
mod locating;
mod near_pairs;
mod parcels;
mod pieces;
mod places;
mod reporting;

pub use checking::{Yes, check, check_parts};
pub use condition::{Condition, LineCondition, ParcelCondition, PieceCondition, Site};
pub use exact::{ExactCondition, ExactFault, ExactPart, check_exact};
pub use fault::{CheckFault, Location};
