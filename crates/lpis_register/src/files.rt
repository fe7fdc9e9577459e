//! A register in memory.

ghost use Rattle.std.specs.Prelude.{◌≡◌, [], IfErr, IfOk};
ghost use Rattle.sqlite.specs.Steps.{over_memory};
ghost use Rattle.lpis_register.specs.Faults.{IsFailure};
ghost use Rattle.lpis_register.specs.Holdings.{holdings};
ghost use Rattle.lpis_register.specs.Publishing.{TablesSay};

use crate::fault::PublishFault;
use crate::register::Register;
use sqlite::{Connection, MemStore};
use std::alloc::Global;

impl Register<MemStore> {
    /// A register in memory, with no release.
    pub fn open_in_memory(alloc: Global) -> Result<Register<MemStore>, PublishFault>
        ensures empty { IfOk result (λ it. it.held ≡ holdings [] []) }
        ensures says { IfOk result (TablesSay over_memory) }
        ensures failure { IfErr result IsFailure }
    {
        let conn = Connection::open_in_memory(alloc)?;
        match Register::adopt(alloc, conn) {
            Ok(register) => Ok(register),
            Err((_conn, fault)) => Err(fault),
        }
    }
}
