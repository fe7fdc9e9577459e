//! The areas of a table.

ghost use Rattle.std.specs.Prelude.{◌≡◌, IfOk, IsFalse, IsTrue, length, take};
ghost use Rattle.lpis_page.specs.Calls.{IsAreaOf, IsUnansweredOr};
ghost use Rattle.lpis_run.specs.Status.{failed};

use crate::reply::Reply;
use lpis_run::{Answer, Failure};
use lpis_run_check::run_area;
use std::alloc::Global;

/// The areas of a table, or the line of its first fault.
fn areas_of(alloc: Global, table: &[u8]) -> Result<Answer, Failure>
    ensures { IfOk result (λ a. IsAreaOf table.now a.status a.text.items) }
{
    let mut text = Vec::new(alloc);
    let status = run_area(alloc, table, &mut text)?;
    Ok(Answer { text, status })
}

/// Gives the area of each row of a table of polygons.
#[unsafe(no_mangle)]
pub extern "C" fn lpis_area(alloc: Global, table: &[u8], room: &mut [u8], reply: &mut Reply) -> bool
    ensures answer { IsTrue result → IsAreaOf table.now reply.new.status
        (take reply.new.length room.new) }
    ensures needed { IsFalse result → IsUnansweredOr (IsAreaOf table.now) (length room.old)
        reply.new.length }
    ensures unanswered { IsFalse result → reply.new.status ≡ failed }
    ensures kept { IsFalse result → room.new ≡ room.old }
{
    match areas_of(alloc, table) {
        Ok(answer) => reply.hand_over(&answer, room),
        Err(_) => reply.none(),
    }
}
