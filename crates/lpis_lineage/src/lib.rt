//! Lineage: what became of each identifier, through the years.
//!
//! The layer above may cite: a History is lawful; `accept` refuses exactly the rest.
//! Begin at `specs/Lawful.antt`, then `src/acceptance.rt`.
#![tactic(auto)]

mod acceptance;
mod change;
mod exact;
mod fates;
mod fault;
mod history;
mod id_set;
mod kind;
mod laws;
mod marks;
mod reading;
mod row;
mod seen;
mod span;
mod step;
mod tally;
mod tracing;

pub use acceptance::accept;
pub use change::Change;
pub use exact::{Group, exact_groups};
pub use fault::{AddFault, LineageCode, LineageFault};
pub use history::History;
pub use id_set::IdSet;
pub use kind::Kind;
pub use laws::{decided_by_faults, held_identifiers_have_spans, kinds_show_splits_and_merges};
pub use reading::read_rows;
pub use row::{Entry, Row};
pub use span::{Span, live_in};
pub use step::Step;
pub use tracing::{MOST_ASKED, Tracing, descendants};
