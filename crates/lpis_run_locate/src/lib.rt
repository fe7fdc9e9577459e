//! The runs of `locate` and `locate-country`: which parcel and which piece of a checked release, or
//! of a checked country, each point of a table is in. A country's regions pass by once.
//!
//! The layer above may cite: text and status of both.
//! Begin at `specs/LocateAnswer.antt`, then `src/locate.rt`.
#![tactic(auto)]

mod locate;
mod locate_country;
mod points_in;
mod printing;
mod progress;
mod search;
mod searching;

pub use locate::run_locate;
pub use locate_country::run_locate_country;
pub use points_in::PointsIn;
pub(crate) use printing::{refuse_points, report_points};
