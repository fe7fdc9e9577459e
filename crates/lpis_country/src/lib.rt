//! Countries: sound maps made of releases that share rows near their borders; and `country.txt`, the
//! plan by which one is cut into regions.
//!
//! The layer above may cite: the country of a list of regions, the tiles that a parcel reaches; a
//! release is a region; a plan's names and tiles from its text, or its first fault.
//! Begin at `specs/Country.antt`, then `src/regions.rt`.
#![tactic(auto)]

mod boxes;
mod draft;
mod fault;
mod laws;
mod line;
mod names;
mod plan;
mod reading;
mod regions;
mod rooms;
mod tiles;

pub use boxes::box_of_polygon;
pub use fault::PlanFault;
pub use laws::{
    as_many_folders_as_tiles, one_country_text_a_tree, plans_without_fault, trees_have_no_fault,
};
pub use plan::{MOST_REGIONS, Plan};
pub use reading::read_plan;
pub use regions::is_region;
pub use tiles::{frame, meets};
