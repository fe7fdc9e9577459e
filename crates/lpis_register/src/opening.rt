//! What an opening finds.

ghost use Rattle.std.specs.Prelude.{◌≡◌, ◌⊎◌, []};
ghost use Rattle.std.proofs.Props.{props};
ghost use Rattle.sqlite.specs.declared.error.Error.TheVariants.{SqliteFailure};
ghost use Rattle.sqlite.specs.declared.error.ErrorCode.TheVariants.{OutOfMemory};
ghost use Rattle.lpis_lineage.specs.Order.{IsAscending};
ghost use Rattle.lpis_register_rows.specs.Shapes.{shape_ids};
ghost use Rattle.lpis_register.specs.Faults.{IsFailure};
ghost use Rattle.lpis_register.specs.declared.fault.PublishFault.TheVariants.{Memory, Store};

use crate::fault::PublishFault;
use lpis_lineage::History;
use lpis_register_rows::KeptShape;
use sqlite::{Error, ErrorCode};
use std::alloc::Global;

/// What tables say: a history, and the shapes that they keep.
#[derive(Drop)]
pub(crate) struct Loaded {
    pub(crate) history: History,
    pub(crate) shapes: Vec<KeptShape>,
    ghost ascending: { IsAscending (shape_ids shapes.items) } by { Prim.hlevel props },
}

impl Loaded {
    /// What a database with no table says: no release.
    pub(crate) fn none(alloc: Global) -> Loaded
        ensures history { result.history ≡ [] }
        ensures shapes { result.shapes.items ≡ [] }
    {
        Loaded {
            history: History::new(alloc),
            shapes: Vec::new(alloc),
        }
    }
}

/// The fault of an opening of which the database answers this: where it is out of memory, that is
/// reported.
pub fn fault_of(error: Error) -> PublishFault
    ensures either { (result ≡ Memory) ⊎ (result ≡ Store) }
    ensures memory { error ≡ SqliteFailure OutOfMemory → result ≡ Memory }
    ensures of_memory { result ≡ Memory → error ≡ SqliteFailure OutOfMemory }
    ensures failure { IsFailure result }
{
    match error {
        Error::SqliteFailure(ErrorCode::OutOfMemory) => PublishFault::Memory,
        _ => PublishFault::Store,
    }
}
