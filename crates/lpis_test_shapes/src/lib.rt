//! Tests of points, pairs of triangles, rings, and the texts of polygons, with values from outside
//! the program.
//!
//! No crate stands on it: it has tests alone.
//! Begin at `src/texts.rt`.
//!
//! They are a crate of their own, since a crate that has tests is proved twice.
#![tactic(auto)]

#[cfg(test)]
mod pairs;
#[cfg(test)]
mod points;
#[cfg(test)]
mod rings;
#[cfg(test)]
mod texts;
#[cfg(test)]
mod writing;
