//! The publication of a country: the union of its regions goes into a register as one release.
//!
//! The layer above may cite: text, status and register of `publish-country` and `exact-country`.
//! Begin at `specs/PublishCountryAnswer.antt`, then `src/publish_country.rt`.
#![tactic(auto)]

mod exact_country;
mod inputs;
mod lineage;
mod publish_country;
mod refusals;
mod unprepared;

pub use exact_country::run_exact_country;
pub use lineage::Lineages;
pub use publish_country::run_publish_country;
