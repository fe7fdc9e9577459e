//! Certificates and their texts.
//!
//! The layer above may cite: text and value correspond one to one.
//! Begin at `specs/CertText.antt`, then `src/reading.rt`.
#![tactic(auto)]

mod blocks;
mod cert;
mod draft;
mod fast_path;
mod fault;
mod fields;
mod form;
mod head;
mod kind;
mod laws;
mod lines;
mod number;
mod part;
mod reading;
mod rest;
mod version;
mod words;
mod writing;

pub use cert::{Cert, MOST_FLATS, MOST_TRIANGLES};
pub use fault::{CertCode, CertFault};
pub use fields::GREATEST_COUNT;
pub use laws::{
    canonical_numbers, cut_texts, one_text_a_value, one_value_a_text, spelled_lines,
    texts_have_no_fault, texts_without_fault,
};
pub use part::{ExactBlock, PairLine, ParcelPart, PiecePart};
pub use reading::{read_cert, read_cert_of};
pub use writing::append_cert;
