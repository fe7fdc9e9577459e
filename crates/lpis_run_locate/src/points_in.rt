//! What points are looked for in.

/// Files, and the table of points that are looked for in them.
#[derive(Drop)]
pub struct PointsIn<F: Drop, T: Drop> {
    /// The files of a release, or those at the top of a country.
    pub files: F,
    /// The table of points.
    pub points: T,
}
