//! `area`, `check` and `cut` for programs in other languages, among them a page in a browser: the
//! bytes of files come in, text and status go out into room that the caller lends.
//!
//! No crate stands on it: it is a static library.
//! Begin at `specs/Calls.antt`, then `src/check.rt`.
//!
//! Each call answers true where there is an answer and its text fits. Else the length is 0, since
//! memory ran out or an input is too long, or it is the length that is needed.
#![tactic(auto)]

mod area;
mod check;
mod cut;
mod reply;

pub use area::lpis_area;
pub use check::lpis_check;
pub use cut::lpis_cut;
pub use reply::Reply;
