//! How much a run prints.

/// What is printed of a country.
#[derive(Clone, Copy, Debug, PartialEq, Eq)]
pub enum Detail {
    /// A line a region.
    Regions,
    /// After it a line for each parcel that first stands in the region.
    Parcels,
}
