//! Why a text is no certificate.

ghost use Rattle.std.specs.Prelude.{◌≡◌};
ghost use Rattle.lpis_cert.specs.Codes.{cert_code_text};
ghost use Rattle.lpis_cert.specs.declared.fault.CertFault.TheVariants.{Memory};

use std::alloc::{AllocError, AllocFailed};
use thiserror::Error;

/// What is wrong with a line.
#[derive(Clone, Copy, Debug, PartialEq, Eq)]
pub enum CertCode {
    /// The first line names no version of the text.
    Version,
    /// An empty word, a first word that the version does not know, another count of words than the
    /// kind's, a word after `exact` other than `split` or `merge`, or an ID that is no identifier.
    LineForm,
    /// A number that is none or out of its range.
    Number,
    /// A line whose kind cannot stand at its place.
    BadPlace,
    /// The line is missing, or has no line end.
    Truncated,
    /// A byte after the last line.
    TextAfterEnd,
    /// More than 2,000,000 triangles or 2,000,000 flats are declared.
    TooMany,
}

impl CertCode {
    /// The two characters that stand for the code in a refusal: `50` to `56`.
    pub fn as_str(self) -> &'static str
        ensures { result.now ≡ cert_code_text self }
    {
        match self {
            CertCode::Version => "50",
            CertCode::LineForm => "51",
            CertCode::Number => "52",
            CertCode::BadPlace => "53",
            CertCode::Truncated => "54",
            CertCode::TextAfterEnd => "55",
            CertCode::TooMany => "56",
        }
    }
}

/// Why `read_cert` answers no certificate.
#[derive(Debug, Drop, Error)]
pub enum CertFault {
    /// Memory ran out.
    #[error("out of memory")]
    Memory,
    /// The first line with a fault, counted from 1.
    #[error("{} in line {line}", .code.as_str())]
    At { code: CertCode, line: u64 },
}

impl From<AllocError> for CertFault {
    ghost from_gives = { λ _ e. e ≡ Memory };

    fn from(_e: AllocError) -> CertFault {
        CertFault::Memory
    }
}

impl<T: Drop> From<AllocFailed<T>> for CertFault {
    ghost from_gives = { λ _ e. e ≡ Memory };

    fn from(_e: AllocFailed<T>) -> CertFault {
        CertFault::Memory
    }
}
