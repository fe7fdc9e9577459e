//! What the program's runs share: how inputs are read and outputs written, what an answer and a
//! failure print, and what tables and a certificate say, which is made where none is named: a
//! release that is a sound map, or the line of the first fault.
//!
//! The layer above may cite: `checked_release` and `understand`, and the lines of refusals.
//! Begin at `specs/CheckAnswer.antt`, then `src/checked.rt`.
#![tactic(auto)]

mod answer;
mod areas;
mod checked;
mod cut_line;
mod detail;
mod failure;
mod folder;
mod making;
mod outcome;
mod outputs;
mod printing;
mod reading;
mod refusal;
mod report;
mod status;
mod stop;
mod understanding;

pub use answer::Answer;
pub use areas::{Areas, areas_at, print_areas};
pub use checked::{checked_release, say_yes};
pub use detail::Detail;
pub use failure::{Failure, Name, print_failure};
pub use folder::{Folder, Submission, Tables, Top, read_cert, read_folder, read_tables};
pub use making::{cert_for, refuse_release};
pub use outcome::Outcome;
pub use outputs::write_text;
pub use printing::{PrintFault, print_line};
pub use reading::{GREATEST_LIMIT, ReadFault, read_all, read_lent, read_named};
pub use refusal::{print_region, print_table_fault};
pub use report::{print_parcel, report_of};
pub use status::{DONE, FAILED, REFUSED, UNREADABLE, status_of};
pub use stop::Stop;
pub use understanding::{ReadInputs, certificate_in, release_in, understand};
