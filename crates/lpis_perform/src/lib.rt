//! A command that the words of the command line ask for, on any machine: which run it is, over
//! which files, in which order they are opened, and where it prints.
//!
//! The layer above may cite: `Performs`, what a request comes to on a machine.
//! Begin at `specs/Performance.antt`, then `src/requests.rt`.
#![tactic(auto)]

mod countries;
mod folders;
mod jobs;
mod machine;
mod opening;
mod releases;
mod requests;

pub use jobs::work;
pub use machine::{Machine, Opened, Registers};
pub use requests::perform;
