//! Well-known text of polygons: [`read`] gives the polygon that a text such as
//! `POLYGON((0 0,10 0,10 10,0 10,0 0))` spells, or reports the first fault of the text.
//!
//! The layer above may cite: `read` is the grammar, with its first fault.
//! Begin at `specs/Grammar.antt`, then `src/reading.rt`.
#![tactic(auto)]

mod coordinate;
mod fast_path;
mod fault;
pub mod laws;
mod number;
mod parser;
mod reading;
mod tokens;
mod words;

pub use fault::{WktCode, WktFault};
pub use number::number_within;
pub use reading::read;
