//! The runs of `area`, `check` and `cut`, over readers and writers.
//!
//! The layer above may cite: text and status of each are the answer's definition.
//! Begin at `specs/CheckRun.antt`, then `src/check.rt`.
#![tactic(auto)]

mod area;
mod check;
mod cut;
mod cut_line;
mod laws;

pub use area::run_area;
pub use check::run_check;
pub use cut::run_cut;
pub use laws::{a_check_has_one_answer, a_sum_of_areas_is_printed};
