//! Lists in fields of public types, lists in blocks of their length, and what a call answers that
//! may run out of memory.
//!
//! The layer above may cite: `Sequence` is the list of its items; the words of `specs/Memory.antt`.
//! Begin at `src/sequence.rt`.
//!
//! | Call | Answer |
//! |---|---|
//! | `Sequence::new`, `as_slice` | the list of a `Vec`'s items, and these again; no memory is taken |
//! | `without_spare` | the same list in a block of its length |
#![tactic(auto)]

mod sequence;

pub use sequence::{Sequence, without_spare};
