//! Why a run gave no answer.

ghost use Rattle.std.specs.Prelude.{◌≡◌, OnOk};
ghost use Rattle.std.specs.Io.KnownBytes.{Appends};
ghost use Rattle.lpis_run.specs.Failures.{failure_text, name_text};
ghost use Rattle.lpis_run.specs.declared.failure.Failure.{Failure};

use crate::printing::PrintFault;
use std::alloc::{AllocError, AllocFailed};
use std::io::Write;

/// An input or an output of a run.
#[derive(Clone, Copy, Debug, PartialEq, Eq)]
pub enum Name {
    /// A table of polygons alone.
    Area,
    /// The parcels table.
    Parcels,
    /// The covers table.
    Covers,
    /// The classes table.
    Classes,
    /// The lineage table.
    Lineage,
    /// The certificate.
    Cert,
    /// The text that says how a country is cut into regions.
    Country,
    /// The table of points.
    Points,
    /// What the run prints.
    Out,
}

impl Name {
    /// The name as a failure reports it.
    pub fn as_str(self) -> &'static str
        ensures { result.now ≡ name_text self }
    {
        match self {
            Name::Area => "area",
            Name::Parcels => "parcels",
            Name::Covers => "covers",
            Name::Classes => "classes",
            Name::Lineage => "lineage",
            Name::Cert => "cert",
            Name::Country => "country",
            Name::Points => "points",
            Name::Out => "out",
        }
    }
}

/// Why a run gave no answer.
#[derive(Debug, PartialEq, Eq, Drop)]
pub enum Failure {
    /// Memory ran out.
    Memory,
    /// An input could not be read, or is longer than the limit of an input.
    Read(Name),
    /// So it is of an input in the folder of the region of this name.
    ReadOf(Name, String),
    /// An output could not be written.
    Write(Name),
    /// The database failed.
    Store,
    /// Memory ran out in the database, or while its tables are read back inside a transaction;
    /// reported as a database that failed.
    StoreMemory,
}

impl From<AllocError> for Failure {
    ghost from_gives = { λ _ e. e ≡ Failure.Memory };

    fn from(_e: AllocError) -> Failure {
        Failure::Memory
    }
}

impl<T: Drop> From<AllocFailed<T>> for Failure {
    ghost from_gives = { λ _ e. e ≡ Failure.Memory };

    fn from(_e: AllocFailed<T>) -> Failure {
        Failure::Memory
    }
}

/// Writes the line of a failure.
pub fn print_failure<W: Write>(failure: &Failure, out: &mut W) -> Result<(), PrintFault>
    ensures { OnOk result (Appends (W.contents out.old) (W.contents out.new)
        (failure_text failure.now)) }
{
    match failure {
        Failure::Memory => out.write_all(b"failed memory\n")?,
        Failure::Read(name) => write!(out, "failed read {}\n", name.as_str())?,
        Failure::ReadOf(name, region) => {
            write!(out, "failed read {} region {region}\n", name.as_str())?;
        }
        Failure::Write(name) => write!(out, "failed write {}\n", name.as_str())?,
        Failure::Store => out.write_all(b"failed store\n")?,
        Failure::StoreMemory => out.write_all(b"failed store\n")?,
    }
    Ok(())
}
