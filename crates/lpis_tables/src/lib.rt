//! Tables in CSV: identifiers, rows by the names of their columns, and rows by their identifiers.
//!
//! The layer above may cite: rows by column name up to the fault that stops them; tables of typed
//! rows with their first fault.
//! Begin at `specs/Table.antt`, then `src/reader.rt`.
#![tactic(auto)]

mod class;
mod class_table;
mod fault;
mod fields;
mod id;
mod keyed;
mod keys;
mod percent;
mod piece;
mod reader;
mod records;
mod rows;
mod typed;

pub use class::{Class, Classes};
pub use class_table::read_classes;
pub use fault::{Table, TableCode, TableFault};
pub use id::{Id, is_id_text};
pub use keyed::{Identified, Keyed};
pub use piece::{Piece, Pieces, read_pieces};
pub use reader::TableReader;
pub use rows::{Rows, read_table};
pub use typed::{TableRow, read_rows};
