//! The table of classes.

ghost use Rattle.std.specs.Prelude.{◌≡◌, ◌≤◌, IfOk};
ghost use Rattle.lpis_tables.specs.Classes.{classes_table, percentage_of};
ghost use Rattle.lpis_tables.specs.Faults.{rows_of};
ghost use Rattle.lpis_tables.specs.Percentages.{most_percent};
ghost use Rattle.lpis_tables.specs.Table.{Answers};

use crate::class::{Class, Classes};
use crate::fault::{Table, TableCode, TableFault};
use crate::id::Id;
use crate::percent::{mark_in, percent_in};
use crate::reader::TableReader;
use crate::typed::{TableRow, read_rows};
use std::alloc::Global;

/// The percentage of the row that was read last: that of the column `percent`, and where there is
/// no such column that of the mark `eligible`.
fn percentage(reader: &TableReader<'_>) -> Result<u8, TableCode>
    ensures is { result ≡ percentage_of reader.now.row }
    ensures most { IfOk result (λ n. n ≤ most_percent) }
{
    match reader.optional_field(1) {
        Some(percent) => percent_in(percent).ok_or(TableCode::BadPercent),
        None => mark_in(reader.field(2)).ok_or(TableCode::BadEligible),
    }
}

impl TableRow for Class {
    ghost use Rattle.std.specs.Prelude.{refl};
    ghost use Rattle.lpis_tables.specs.Classes.{classes_table, code_faults, percentage_of};

    ghost kind = { classes_table };

    ghost others = { λ n row. code_faults n (percentage_of row) };

    fn table() -> Table {
        Table::Classes
    }

    fn columns() -> &'static [&'static [u8]] {
        &[b"class"]
    }

    fn further() -> &'static [&'static [u8]] {
        &[b"percent", b"eligible"]
    }

    fn is_enough(reader: &TableReader<'_>) -> bool {
        reader.has_column(1) || reader.has_column(2)
    }

    fn read(alloc: Global, reader: &TableReader<'_>, code: Id) -> Result<Class, TableFault> {
        match percentage(reader) {
            Ok(percent) => Ok(Class { code, percent }),
            Err(fault) => Err(reader.fault(fault)),
        }
    }

    ghost key_is_first = { λ row. refl };

    ghost key_is_tested_first = { λ keys n row. refl };
}

/// The classes of the table `classes`, or its first fault. Beside the column `class` it has a column
/// `percent` of whole numbers from `0` to `100`, or else a column `eligible` of marks, `0` for none
/// and `1` for the whole. Beside `percent` the values of `eligible` are not looked at.
pub fn read_classes(alloc: Global, bytes: &[u8]) -> Result<Classes, TableFault>
    ensures { Answers result (rows_of classes_table bytes.now) }
{
    read_rows(alloc, bytes)
}
