//! The rows of a table as values of a type.

ghost use Rattle.std.specs.Prelude.{◌≡◌, ◌≤◌, ◌++◌, ◌∷◌, [], Ok, Err, IfErr, IfOk, OnOk, length};
ghost use Rattle.std.specs.Prelude.{map};
ghost use Rattle.lpis_tables.specs.Faults.{rows_of, unless_faulty, values_of};
ghost use Rattle.lpis_tables.specs.Table.{Answers, field_of, most_rows};
ghost use Rattle.lpis_tables.specs.private.Header.{IsHeaderRead};

use crate::fault::{Table, TableCode, TableFault};
use crate::id::Id;
use crate::keyed::{Identified, Keyed};
use crate::keys::Keys;
use crate::reader::{MOST_ROWS, TableReader, fault};
use std::alloc::Global;
use std::simd::prelude::*;

/// A row that is read from a table whose first column is its identifier.
pub trait TableRow: Identified + Drop {
    ghost use Rattle.std.specs.Prelude.{◌≡◌, ◌++◌, List, ℕ};
    ghost use Rattle.lpis_tables.specs.declared.fault.TableFault.{TableFault};
    ghost use Rattle.lpis_tables.specs.Faults.{RowsOf, key_faults, unless_faulty};
    ghost use Rattle.lpis_tables.specs.Table.{Answers, Fields, field_of, texts};

    ghost kind: { RowsOf Self };

    ghost others: { ℕ → Fields → List TableFault };

    /// The table.
    fn table() -> Table
        ensures { result ≡ kind.table };

    /// Its columns that must be there, in the order in which they are tested.
    fn columns() -> &'static [&'static [u8]]
        ensures { texts result.now ≡ kind.columns };

    /// Its further columns, which may be absent.
    fn further() -> &'static [&'static [u8]]
        ensures { texts result.now ≡ kind.further };

    /// Whether the columns that the header has are enough.
    fn is_enough(reader: &TableReader<'_>) -> bool
        ensures { result ≡ kind.enough reader.now.has };

    /// The row that was read last, by its identifier and its other fields.
    fn read(alloc: Global, reader: &TableReader<'_>, id: Id) -> Result<Self, TableFault>
        requires table { reader.now.table ≡ kind.table }
        requires key { id ≡ field_of reader.now.row 0 }
        ensures { Answers result
            (unless_faulty (others reader.now.number reader.now.row) (kind.value reader.now.row)) };

    ghost key_is_first: { (row : Fields) → Self.identifier (kind.value row) ≡ field_of row 0 };

    ghost key_is_tested_first: { (keys : List (List ℕ)) (n : ℕ) (row : Fields)
        → kind.faults keys n row ≡ key_faults kind.table n keys (field_of row 0) ++ others n row };
}

/// Adds the row that was read last, and its identifier. A refusal is the row's first fault.
fn add_row<T: TableRow>(
    alloc: Global,
    reader: &TableReader<'_>,
    keys: &mut Keys,
    rows: &mut Vec<T>,
) -> Result<(), TableFault>
    requires table { reader.now.table ≡ T.kind.table }
    ensures fault { IfErr result
        (λ fault. Answers (Err fault) (unless_faulty (T.kind.faults keys.old
        reader.now.number reader.now.row) (T.kind.value reader.now.row))) }
    ensures good { OnOk result (T.kind.faults keys.old reader.now.number reader.now.row ≡ []) }
    ensures keys { OnOk result (keys.new ≡ keys.old ++ field_of reader.now.row 0 ∷ []) }
    ensures rows { OnOk result (rows.new.items ≡ rows.old.items ++
        T.kind.value reader.now.row ∷ []) }
{
    let id = reader.key(alloc, 0, keys)?;
    let row = T::read(alloc, reader, id)?;
    rows.push(row)?;
    Ok(())
}

/// How many line feeds there are.
fn line_feeds(bytes: &[u8]) -> usize {
    let (blocks, rest) = bytes.as_chunks::<64>();
    let mut count = 0usize;
    for block in blocks {
        let are_feeds = u8x64::from_array(*block).simd_eq(u8x64::splat(b'\n'));
        count = count.wrapping_add(are_feeds.to_bitmask().count_ones() as usize);
    }
    let left = rest.iter().filter(|byte| **byte == b'\n').count();
    count.wrapping_add(left)
}

/// For how many rows room is made: one for each line feed, and no more than a table may have. Room
/// that is made at once leaves no gaps where a growing list lay before. Where lines end with a
/// carriage return alone the lists grow.
fn room_for_rows(bytes: &[u8]) -> usize {
    line_feeds(bytes).min(MOST_ROWS as usize)
}

/// Adds the rows of a table whose header alone was read, and their identifiers. A refusal is the
/// first fault of a row, in the order of the rows and in it of the columns; else that which stops
/// the rows.
fn add_rows<T: TableRow>(
    alloc: Global,
    reader: &mut TableReader<'_>,
    keys: &mut Keys,
    rows: &mut Vec<T>,
) -> Result<(), TableFault>
    requires header { IsHeaderRead T.kind reader.old }
    requires empty { (keys.old ≡ []) × (rows.old.items ≡ []) }
    ensures fault { IfErr result
        (λ fault. Answers (Err fault) (values_of T.kind (Ok reader.old))) }
    ensures rows { OnOk result (values_of T.kind (Ok reader.old) ≡ Ok rows.new.items) }
    ensures keyed { OnOk result ((keys.new ≡ map T.identifier rows.new.items)
        × (length rows.new.items ≤ most_rows)) }
{
    'rows: while reader.next_row()? {
        add_row(alloc, reader, keys, rows)?;
    }
    Ok(())
}

/// The rows of a table whose header alone was read, for so many of which room is made.
fn rows_under<T: TableRow>(
    alloc: Global,
    reader: &mut TableReader<'_>,
    room: usize,
) -> Result<Keyed<T>, TableFault>
    requires header { IsHeaderRead T.kind reader.old }
    ensures { Answers result (values_of T.kind (Ok reader.old)) }
{
    let mut keys = Keys::with_capacity(alloc, room)?;
    let mut rows = Vec::with_capacity(alloc, room)?;
    add_rows(alloc, reader, &mut keys, &mut rows)?;
    Ok(Keyed::of(rows, keys))
}

/// A reader of a table whose header has columns enough, and alone was read. A refusal is the first
/// fault of row 0.
fn opened<T: TableRow>(alloc: Global, bytes: &[u8]) -> Result<TableReader<'_>, TableFault>
    ensures fault { IfErr result (λ fault. Answers (Err fault) (rows_of T.kind bytes.now)) }
    ensures rows { IfOk result
        (λ reader. rows_of T.kind bytes.now ≡ values_of T.kind (Ok reader)) }
    ensures header { IfOk result (IsHeaderRead T.kind) }
{
    let reader = TableReader::open(alloc, bytes, T::table(), T::columns(), T::further())?;
    if T::is_enough(&reader) {
        Ok(reader)
    } else {
        Err(fault(TableCode::MissingColumn, T::table(), 0))
    }
}

/// The rows of a table, by their identifiers in its order. A refusal is the first fault: of row 0;
/// else of a row, in the order of the rows and in it of the columns; else that which stops the
/// rows.
pub fn read_rows<T: TableRow>(alloc: Global, bytes: &[u8]) -> Result<Keyed<T>, TableFault>
    ensures { Answers result (rows_of T.kind bytes.now) }
{
    let mut reader = opened::<T>(alloc, bytes)?;
    rows_under(alloc, &mut reader, room_for_rows(bytes))
}
