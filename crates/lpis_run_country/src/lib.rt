//! The run over the regions of a country: each is read, checked, tested against those before it,
//! and let go before the next one.
//!
//! The layer above may cite: text and status of `country`, over whatever opens the folders; what
//! the run comes to that hands over the country's parcels.
//! Begin at `specs/CountryAnswer.antt`, then `src/country.rt`.
#![tactic(auto)]

mod beginning;
mod country;
mod folder;
mod gathering;
mod joining;
mod judging;
mod lines;
mod passing;
mod progress;
mod refusals;
mod totals;

pub use beginning::{Begun, begin, read_top};
pub use country::run_country;
pub use folder::{Regions, read_region};
pub use joining::{JoinedCountry, Joining, join_regions};
pub use refusals::refuse_seam;
