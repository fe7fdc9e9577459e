//! The runs over a register: the publication of a release, the blocks that its marked rows ask for,
//! and the trace of identifiers.
//!
//! The layer above may cite: the same of `publish`, `exact` and `trace`, over any register; and of
//! a release that was accepted, whichever run accepted it.
//! Begin at `specs/PublishAnswer.antt`, then `src/publish.rt`.
#![tactic(auto)]

mod blocks;
mod exact;
mod inputs;
mod lineage_lines;
mod publish;
mod submission;
mod trace;
mod unopened;

pub use exact::{fill_blocks, run_exact};
pub use lineage_lines::refuse;
pub use publish::{publish_accepted, run_publish};
pub use submission::rows_in;
pub use trace::run_trace;
pub use unopened::refuse_register;
