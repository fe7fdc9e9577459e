//! The run of `area`, over any reader and writer.

ghost use Rattle.std.specs.Prelude.{◌≡◌, ◌++◌, [], List, IfOk, MatchResult, Ok, Err};
ghost use Rattle.lpis_rings.specs.declared.polygon.Member.{Member};
ghost use Rattle.lpis_tables.specs.declared.fault.Table.TheVariants.{Area};
ghost use Rattle.lpis_tables.specs.Faults.{rows_of, unless_faulty, values_of};
ghost use Rattle.lpis_tables.specs.Table.{Answers};
ghost use Rattle.lpis_run_check.specs.AreaAnswer.{Measures, answer_from, area_answer, area_table};
ghost use Rattle.lpis_run_check.specs.AreaAnswer.{polygon_area_line};
ghost use Rattle.lpis_run.specs.Failures.{IsUnread};
ghost use Rattle.lpis_run.specs.Run.{Runs};
ghost use Rattle.lpis_run.specs.Status.{done};
ghost use Rattle.lpis_run.specs.declared.failure.Name.{Name};

use lpis_rings::area2;
use lpis_run::{Answer, DONE, Failure, Name, print_line, read_named};
use lpis_tables::{Table, TableFault, TableReader};
use std::alloc::{AllocError, Global};
use std::io::{Read, Write};

/// Adds the line of the row that was read last.
fn add_line(alloc: Global, reader: &TableReader<'_>, lines: &mut Vec<u8>) -> Result<(), TableFault>
    requires table { reader.now.table ≡ Area }
    ensures { let faults = area_table.faults [] reader.now.number reader.now.row in
        let row = unless_faulty faults (area_table.value reader.now.row) in
        MatchResult result
        (λ _. (polygon : List Member) × (row ≡ Ok polygon)
        × (lines.new.items ≡ lines.old.items ++ polygon_area_line polygon))
        (λ fault. Answers (Err fault) row) }
{
    let polygon = reader.polygon(alloc, 0)?;
    if print_line(area2(&polygon), lines).is_err() {
        return Err(TableFault::Memory);
    }
    Ok(())
}

/// Adds the lines of the rows of a table whose header alone was read to a list without lines.
fn add_lines(
    alloc: Global,
    reader: &mut TableReader<'_>,
    lines: &mut Vec<u8>,
) -> Result<(), TableFault>
    requires table { reader.old.table ≡ Area }
    requires start { reader.old.number ≡ 0 }
    requires empty { lines.old.items ≡ [] }
    ensures { MatchResult result
        (λ _. answer_from (values_of area_table (Ok reader.old)) ≡ (lines.new.items, done))
        (λ fault. Answers (Err fault) (values_of area_table (Ok reader.old))) }
{
    'rows: while reader.next_row()? {
        add_line(alloc, reader, lines)?;
    }
    Ok(())
}

/// Adds the area of each row of a table, on a line of its own, to a list without lines.
fn area_lines(alloc: Global, bytes: &[u8], lines: &mut Vec<u8>) -> Result<(), TableFault>
    requires empty { lines.old.items ≡ [] }
    ensures { MatchResult result
        (λ _. answer_from (rows_of area_table bytes.now) ≡ (lines.new.items, done))
        (λ fault. Answers (Err fault) (rows_of area_table bytes.now)) }
{
    let columns = [b"wkt".as_slice()];
    let mut reader = TableReader::open(alloc, bytes, Table::Area, columns.as_slice(), &[])?;
    add_lines(alloc, &mut reader, lines)
}

/// The answer to a table: the area of each row, or the line of its first fault.
fn answer_to(alloc: Global, bytes: &[u8]) -> Result<Answer, AllocError>
    ensures { IfOk result (λ a. (a.text.items, a.status) ≡ area_answer bytes.now) }
{
    let mut text = Vec::new(alloc);
    match area_lines(alloc, bytes, &mut text) {
        Ok(()) => Ok(Answer { text, status: DONE }),
        Err(TableFault::Memory) => Err(AllocError),
        Err(fault) => Answer::refuse_table(alloc, &fault),
    }
}

/// Prints the area of each row of a table with a column `wkt`, a line each, or the line of the
/// table's first fault.
///
/// The table is read to its end before anything is written. Ok is the status: `DONE` or
/// `UNREADABLE`.
pub fn run_area<R: Read + Drop, W: Write>(
    alloc: Global,
    table: R,
    out: &mut W,
) -> Result<u8, Failure>
    ensures { Runs (IsUnread Name.Area) (Measures (R.remaining table)) (W.contents out.old)
        (W.contents out.new) result }
{
    let bytes = read_named(alloc, table, Name::Area)?;
    let answer = answer_to(alloc, bytes.as_slice())?;
    answer.write_to(out)
}
