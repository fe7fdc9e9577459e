//! The loop that writes a release, which rests on the statements' clauses alone.

ghost use Rattle.std.specs.Prelude.{◌≡◌};
ghost use Rattle.lpis_register_sql.specs.Within.{Makes};
ghost use Rattle.lpis_register_sql.specs.private.StepStatements.{statements_in, statements_left};

use crate::marks::insert_if;
use crate::statements::{end_span, insert_release, insert_row, insert_span};
use crate::steps::{Step, Steps, next_step};
use crate::texts::write_if;
use sqlite::{Alter, Error, Transaction};
use std::alloc::Global;

/// Makes the statements of a step.
fn write_step<S: Alter>(
    alloc: Global,
    tx: &mut Transaction<'_, S>,
    step: Step<'_>,
) -> Result<(), Error>
    ensures same_reference { tx.new.conn.ghost_name ≡ tx.old.conn.ghost_name }
    ensures makes { Makes S.Store (statements_in step.entry) tx.old.conn.now
        tx.new.conn.now result }
{
    match step {
        Step::Year(year) => insert_release(tx, year),
        Step::Ends(last, id) => end_span(tx, last, id),
        Step::Begins(year, id) => insert_span(tx, year, id),
        Step::Line(placed) => insert_row(tx, placed.year, placed.position, placed.row),
        Step::Mark(placed) => insert_if(tx, placed.year, placed.position, placed.row),
        Step::Edit(edit) => write_if(alloc, tx, edit),
    }
}

/// Makes the statements of all steps, in turn.
pub(crate) fn write_steps<S: Alter>(
    alloc: Global,
    tx: &mut Transaction<'_, S>,
    steps: Steps<'_>,
) -> Result<(), Error>
    ensures same_reference { tx.new.conn.ghost_name ≡ tx.old.conn.ghost_name }
    ensures makes { Makes S.Store (statements_left steps.entry) tx.old.conn.now
        tx.new.conn.now result }
{
    let mut rest = steps;
    'each: while let Some((step, next)) = next_step(rest) {
        write_step(alloc, tx, step)?;
        rest = next;
    }
    Ok(())
}
