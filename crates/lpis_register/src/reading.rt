//! The history that tables of version 3 say, read, and shapes, copied.

ghost use Rattle.std.specs.Prelude.{◌≡◌, false, IfErr, IfOk};
ghost use Rattle.sqlite.specs.Held.{state};
ghost use Rattle.lpis_register.specs.Failing.{HasReadCause};
ghost use Rattle.lpis_register.specs.HistoryAnswers.{ReadsHistory};
ghost use Rattle.lpis_register.specs.declared.fault.PublishFault.TheVariants.{Store};

use crate::fault::PublishFault;
use crate::finding::find_rows;
use lpis_lineage::History;
use lpis_register_rows::KeptShape;
use lpis_register_sql::tables_in;
use sqlite::{Alter, Connection};
use std::alloc::{AllocError, Global};

/// The history that the tables of version 3 say, of which there is one. Nothing is changed.
pub(crate) fn read_history<S: Alter>(
    alloc: Global,
    conn: &mut Connection<S>,
) -> Result<History, PublishFault>
    requires autocommit { conn.old.in_transaction ≡ false }
    ensures autocommit { conn.new.in_transaction ≡ false }
    ensures reads { ReadsHistory (state S.Store conn.old) (state S.Store conn.new) result }
    ensures cause { IfErr result (λ fault. HasReadCause (state S.Store conn.old)
        (state S.Store conn.new) (fault ≡ Store)) }
{
    let found = tables_in(conn.schema());
    match find_rows(alloc, conn, &found) {
        Ok((history, _version)) => Ok(history),
        Err(fault) => Err(fault),
    }
}

/// Copies of shapes, in their order.
pub(crate) fn copied_shapes(
    alloc: Global,
    shapes: &[KeptShape],
) -> Result<Vec<KeptShape>, AllocError>
    ensures { IfOk result (λ copies. copies.items ≡ shapes.now) }
{
    let mut copies = Vec::with_capacity(alloc, shapes.len())?;
    for shape in shapes {
        let copy = shape.copy()?;
        copies.push(copy)?;
    }
    Ok(copies)
}
