//! The table of lineage.

ghost use Rattle.std.specs.Prelude.{◌≡◌, ◌∷◌, [], codes, false, unwrap_or, Ok, Err, IfErr, OnOk};
ghost use Rattle.lpis_tables.specs.Faults.{rows_of, unless_faulty, values_of};
ghost use Rattle.lpis_tables.specs.Table.{Answers, field_of, texts};
ghost use Rattle.lpis_tables.specs.declared.fault.Table.TheVariants as tables;
ghost use Rattle.lpis_lineage.specs.LineageTable.{AnswersRows, lineage_faults, lineage_table};
ghost use Rattle.lpis_lineage.specs.LineageTable.{mark_field_faults, mark_of_text};
ghost use Rattle.lpis_lineage.specs.LineageTable.{row_of};
ghost use Rattle.lpis_lineage.specs.LineageTable.{successor_faults, successor_of};

use crate::row::Row;
use lpis_tables::{Id, Table, TableCode, TableFault, TableReader};
use std::alloc::Global;

/// The columns that must be there, in the order in which they are tested.
fn columns() -> &'static [&'static [u8]]
    ensures { texts result.now ≡ codes "old" ∷ codes "new" ∷ [] }
{
    &[b"old", b"new"]
}

/// The further column, which may be absent.
fn further() -> &'static [&'static [u8]]
    ensures { texts result.now ≡ codes "exact" ∷ [] }
{
    &[b"exact"]
}

/// The successor of the row that was read last.
fn read_successor(alloc: Global, reader: &TableReader<'_>) -> Result<Option<Id>, TableFault>
    requires { reader.now.table ≡ tables.Lineage }
    ensures { let field = field_of reader.now.row 1 in
        Answers result (unless_faulty (successor_faults reader.now.number field)
        (successor_of field)) }
{
    if reader.field(1).is_empty() {
        return Ok(None);
    }
    let id = reader.id(alloc, 1)?;
    Ok(Some(id))
}

/// Whether a text marks a row: `1` does; `0` and no text do not.
fn mark_in(text: &[u8]) -> Option<bool>
    ensures { result ≡ mark_of_text text.now }
{
    match text {
        b"" | b"0" => Some(false),
        b"1" => Some(true),
        _ => None,
    }
}

/// Whether the row that was read last is marked.
fn read_mark(reader: &TableReader<'_>, number: u32) -> Result<bool, TableFault>
    requires { number ≡ reader.now.number }
    ensures { let mark = mark_of_text (field_of reader.now.row 2) in
        Answers result (unless_faulty (mark_field_faults reader.now.number mark)
        (unwrap_or mark false)) }
{
    match mark_in(reader.field(2)) {
        Some(mark) => Ok(mark),
        None => Err(TableFault::At {
            code: TableCode::BadMark,
            table: Table::Lineage,
            row: number,
            wkt: None,
        }),
    }
}

/// The row that was read last, which has this number.
fn read_row(alloc: Global, reader: &TableReader<'_>, number: u32) -> Result<Row, TableFault>
    requires table { reader.now.table ≡ tables.Lineage }
    requires number { number ≡ reader.now.number }
    ensures { Answers result (unless_faulty (lineage_faults reader.now.number reader.now.row)
        (row_of reader.now.row)) }
{
    let old = reader.id(alloc, 0)?;
    let new = read_successor(alloc, reader)?;
    let exact = read_mark(reader, number)?;
    Ok(Row { old, new, exact })
}

/// Adds the rows of a table whose header alone was read to a list without rows. A refusal is the
/// first fault of a row, else that which stops the rows.
fn add_rows(
    alloc: Global,
    reader: &mut TableReader<'_>,
    rows: &mut Vec<Row>,
) -> Result<(), TableFault>
    requires table { reader.old.table ≡ tables.Lineage }
    requires start { reader.old.number ≡ 0 }
    requires empty { rows.old.items ≡ [] }
    ensures fault { IfErr result
        (λ fault. Answers (Err fault) (values_of lineage_table (Ok reader.old))) }
    ensures rows { OnOk result (values_of lineage_table (Ok reader.old) ≡ Ok rows.new.items) }
{
    let mut number = 0;
    'rows: while reader.next_row()? {
        number += 1;
        let row = read_row(alloc, reader, number)?;
        rows.push(row)?;
    }
    Ok(())
}

/// The rows of the table `lineage`, with the columns `old` and `new`; an empty `new` makes an
/// ending. There may be a column `exact`, in which `1` marks a row; `0` and an empty field do not.
/// A refusal is the first fault: of row 0; else of a row, in the order of the rows and in it of the
/// columns, `exact` last; else that which stops the rows.
pub fn read_rows(alloc: Global, bytes: &[u8]) -> Result<Vec<Row>, TableFault>
    ensures { AnswersRows result (rows_of lineage_table bytes.now) }
{
    let mut reader = TableReader::open(alloc, bytes, Table::Lineage, columns(), further())?;
    let mut rows = Vec::new(alloc);
    add_rows(alloc, &mut reader, &mut rows)?;
    Ok(rows)
}
