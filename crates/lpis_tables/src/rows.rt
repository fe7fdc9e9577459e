//! The rows of a table, as a list.

ghost use Rattle.std.specs.Prelude.{◌≡◌, ◌++◌, ◌∷◌, [], map, option_map, slice_index_or, None};
ghost use Rattle.std.specs.Prelude.{IfOk, Ok, OnOk, Some, if◌then◌else◌};
ghost use Rattle.csv.specs.Records.{fields_of};
ghost use Rattle.lpis_tables.specs.Table.{flat, has_column, table_of, texts};
ghost use Rattle.lpis_tables.specs.Rows.{RowsAnswer};

use crate::fault::{Table, TableFault};
use crate::reader::TableReader;
use csv::ByteRecord;
use lpis_memory::{Sequence, without_spare};
use std::alloc::{AllocError, Global};

/// The wanted columns of the rows before the first fault of length or number, as bytes, and that
/// fault.
#[derive(Drop)]
pub struct Rows {
    /// For each wanted column whether the header has it.
    pub has: Sequence<bool>,
    /// The wanted fields of each row, empty for a column that the header has not.
    pub rows: Sequence<ByteRecord>,
    pub stop: Option<TableFault>,
}

/// The k-th of the marks, from 0, and false past the last one.
fn is_there(has: &[bool], k: usize) -> bool
    ensures { result ≡ has_column has.now k }
{
    match has.get(k) {
        Some(there) => *there,
        None => false,
    }
}

impl Rows {
    /// The k-th wanted field of a row, from 0, where the header has its column.
    pub fn optional_field<'a>(&self, row: &'a ByteRecord, k: usize) -> Option<&'a [u8]>
        ensures { option_map (λ field. field.now) result ≡ (if has_column self.now.has k then
            Some (slice_index_or (fields_of row.now) k []) else None) }
    {
        if is_there(self.has.as_slice(), k) {
            Some(row.get(k).unwrap_or(&[]))
        } else {
            None
        }
    }
}

/// Adds a copy of the row that was read last.
fn add_copy(
    alloc: Global,
    reader: &TableReader<'_>,
    rows: &mut Vec<ByteRecord>,
) -> Result<(), AllocError>
    ensures { OnOk result (map fields_of rows.new.items ≡
        map fields_of rows.old.items ++ flat reader.now.row ∷ []) }
{
    let row = reader.copy_row(alloc)?;
    rows.push(row)?;
    Ok(())
}

/// Adds copies of the rows that are left to a list without rows. The answer is the fault that stops
/// them.
fn copy_rows(
    alloc: Global,
    reader: &mut TableReader<'_>,
    rows: &mut Vec<ByteRecord>,
) -> Result<Option<TableFault>, AllocError>
    requires { rows.old.items ≡ [] }
    ensures rows { OnOk result (map fields_of rows.new.items ≡ map flat reader.old.rows) }
    ensures stop { IfOk result (λ stop. stop ≡ reader.old.stop) }
{
    'rows: loop {
        match reader.next_row() {
            Ok(true) => add_copy(alloc, reader, rows)?,
            Ok(false) => return Ok(None),
            Err(TableFault::Memory) => return Err(AllocError),
            Err(fault) => return Ok(Some(fault)),
        }
    }
}

/// Copies of the rows that are left, and the fault that stops them.
fn rows_left(
    alloc: Global,
    reader: &mut TableReader<'_>,
) -> Result<(Sequence<ByteRecord>, Option<TableFault>), AllocError>
    ensures rows { IfOk result (λ left. map fields_of left.0 ≡ map flat reader.old.rows) }
    ensures stop { IfOk result (λ left. left.1 ≡ reader.old.stop) }
{
    let mut rows = Vec::new(alloc);
    let stop = copy_rows(alloc, reader, &mut rows)?;
    Ok((Sequence::new(without_spare(rows)?), stop))
}

/// The columns that a table has, the rows that are left of it, and what stops them.
fn all_rows(alloc: Global, reader: &mut TableReader<'_>) -> Result<Rows, TableFault>
    ensures { RowsAnswer result (Ok reader.old) }
{
    let has = reader.columns_there(alloc)?;
    let (rows, stop) = rows_left(alloc, reader)?;
    Ok(Rows {
        has: Sequence::new(has),
        rows,
        stop,
    })
}

/// The wanted columns of a table, by their names in the order given: `columns`, and then `further`
/// ones that may be absent. A refusal is a fault of row 0, or out of memory.
pub fn read_table(
    alloc: Global,
    bytes: &[u8],
    table: Table,
    columns: &[&[u8]],
    further: &[&[u8]],
) -> Result<Rows, TableFault>
    ensures { RowsAnswer result
        (table_of table (texts columns.now) (texts further.now) bytes.now) }
{
    let mut reader = TableReader::open(alloc, bytes, table, columns, further)?;
    all_rows(alloc, &mut reader)
}
