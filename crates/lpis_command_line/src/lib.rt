//! The words of the command line, with their help, and what they ask for: a command with its files.
//!
//! The layer above may cite: which command words ask for, with its files and its other words.
//! Begin at `specs/Commands.antt`, then `src/commands.rt`.
#![tactic(auto)]

mod arguments;
mod command_line;
mod commands;
mod files;
mod request;
mod usage;
mod words;

pub use commands::{Job, Request};
pub use files::{CountryFolder, NamedFile, cert_in, lineage_in, path_in, tables_in};
pub use request::{matches_of, request_of};
pub use usage::usage_ends;
