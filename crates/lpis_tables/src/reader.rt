//! A reader of a table, row by row.

ghost use Rattle.std.specs.Prelude.{◌≡◌, ◌≤◌, [], None, Some, IfErr, IfOk, OnOk, Ok, option_map};
ghost use Rattle.std.specs.Prelude.{option_to_list, slice_index_or, unwrap_or};
ghost use Rattle.csv.specs.Records.{fields_of};
ghost use Rattle.csv.specs.Reading.{strip_bom};
ghost use Rattle.lpis_tables.specs.Table.{Advances, Answers, fault_at, field_of};
ghost use Rattle.lpis_tables.specs.Table.{flat, most_rows};
ghost use Rattle.lpis_tables.specs.Table.{has_column, has_mark, one_place, optional_field, picked};
ghost use Rattle.lpis_tables.specs.Table.{place_of};
ghost use Rattle.lpis_tables.specs.Table.{field_at_place, places_of, table_of, texts};
ghost use Rattle.lpis_tables.specs.Table.{wanted_places};
ghost use Rattle.lpis_tables.specs.declared.fault.TableCode.TheVariants.{BadGeometry};
ghost use Rattle.lpis_tables.specs.declared.fault.TableFault.TheVariants.{At};
ghost use Rattle.lpis_tables.specs.private.Columns.{NamesColumn, after_places};
ghost use Rattle.lpis_tables.specs.private.Stops.{stop_fault};

use crate::fault::{Table, TableCode, TableFault};
use crate::records::{Records, Step};
use csv::ByteRecord;
use lpis_wkt::WktFault;
use std::alloc::{AllocError, Global};
use std::marker::Model;

/// The most rows of a table, its header aside.
pub(crate) const MOST_ROWS: u32 = 200_000;

/// What stopped the rows behind the last one that was read.
#[derive(Clone, Copy, Debug, PartialEq, Eq)]
pub(crate) enum Stop {
    /// Memory ran out.
    Memory,
    /// A fault in the row after it.
    At(TableCode),
}

/// A reader of a table, row by row: it holds one row at a time. Contracts see the number and the
/// wanted fields of the row that was read last, the rows that are left and the fault that stops
/// them.
#[derive(Drop)]
pub struct TableReader<'a> {
    records: Records<'a>,
    current: ByteRecord,
    places: Vec<Option<usize>>,
    table: Table,
    number: u32,
    stopped: Option<Stop>,
}

impl<'a> Model for TableReader<'a> {
    ghost use Rattle.std.specs.Prelude.{◌≤◌, ◌+◌};
    ghost use Rattle.csv.specs.Records.{fields_of};
    ghost use Rattle.lpis_tables.specs.Table.{Reading, most_rows, picked, reading, rows_from};
    ghost use Rattle.lpis_tables.specs.private.Stops.{left_after};

    ghost Value = { Reading };

    ghost view = { λ r. reading r.table r.places.items r.number
        (picked r.places.items (fields_of r.current)) (left_after r.table r.number r.stopped
        (rows_from r.table r.records.width r.places.items (r.number + 1) r.records.records)) };

    ghost invariant = { λ r. r.number ≤ most_rows };
}

/// Whether a text starts with a byte order mark.
fn starts_with_mark(text: &[u8]) -> bool
    ensures { result ≡ has_mark text.now }
{
    match text {
        [a, b, c, ..] => *a == 0xEF && *b == 0xBB && *c == 0xBF,
        _ => false,
    }
}

/// The text after a byte order mark, if it starts with one.
fn without_mark(text: &[u8]) -> &[u8]
    ensures { result.now ≡ strip_bom text.now }
{
    if starts_with_mark(text) {
        &text[3..]
    } else {
        text
    }
}

/// The place of a column that stands at most once in the header.
fn place_found(found: Option<usize>, needed: bool) -> Result<Option<usize>, TableCode>
    ensures { result ≡ one_place needed (option_to_list found) }
{
    match found {
        Some(index) => Ok(Some(index)),
        None => {
            if needed {
                Err(TableCode::MissingColumn)
            } else {
                Ok(None)
            }
        }
    }
}

/// Where a column stands in the header: at the one field that has its name, or nowhere if it may be
/// absent.
fn column_place(header: &ByteRecord, name: &[u8], needed: bool) -> Result<Option<usize>, TableCode>
    ensures { result ≡ place_of needed (fields_of header.now) name.now }
{
    let mut found: Option<usize> = None;
    for i in 0..header.len() {
        if let Some(field) = header.get(i) {
            if field.eq_ignore_ascii_case(name) {
                if found.is_some() {
                    return Err(TableCode::DoubledColumn);
                }
                found = Some(i);
            }
        }
    }
    place_found(found, needed)
}

/// Adds the places of the columns of these names.
fn add_places(
    header: &ByteRecord,
    table: Table,
    names: &[&[u8]],
    needed: bool,
    places: &mut Vec<Option<usize>>,
) -> Result<(), TableFault>
    ensures ok { OnOk result (after_places places.old.items
        (places_of needed (fields_of header.now) (texts names.now)) ≡ Ok places.new.items) }
    ensures err { IfErr result
        (NamesColumn table (places_of needed (fields_of header.now) (texts names.now))) }
{
    for name in names {
        match column_place(header, name, needed) {
            Ok(place) => places.push(place)?,
            Err(code) => return Err(fault(code, table, 0)),
        }
    }
    Ok(())
}

/// The places of the wanted columns: of those that must be there, then of those that may be absent.
fn column_places(
    alloc: Global,
    header: &ByteRecord,
    table: Table,
    names: &[&[u8]],
    further: &[&[u8]],
) -> Result<Vec<Option<usize>>, TableFault>
    ensures ok { IfOk result (λ v. wanted_places (fields_of header.now) (texts names.now)
        (texts further.now) ≡ Ok v.items) }
    ensures err { IfErr result (NamesColumn table
        (wanted_places (fields_of header.now) (texts names.now) (texts further.now))) }
{
    let mut places = Vec::new(alloc);
    add_places(header, table, names, true, &mut places)?;
    add_places(header, table, further, false, &mut places)?;
    Ok(places)
}

/// The field at a place, empty where there is none.
fn field_at<'a>(row: &'a ByteRecord, place: Option<usize>) -> &'a [u8]
    ensures { result.now ≡ unwrap_or (field_at_place (fields_of row.now) place) [] }
{
    match place {
        Some(index) => row.get(index).unwrap_or(&[]),
        None => &[],
    }
}

/// The k-th of the places, from 0.
fn place_at(places: &[Option<usize>], k: usize) -> Option<usize>
    ensures { result ≡ slice_index_or places.now k None }
{
    match places.get(k) {
        Some(place) => *place,
        None => None,
    }
}

/// A copy of the fields at these places.
fn picked_row(
    alloc: Global,
    row: &ByteRecord,
    places: &[Option<usize>],
) -> Result<ByteRecord, AllocError>
    ensures { IfOk result (λ r. fields_of r ≡ flat (picked places.now (fields_of row.now))) }
{
    let mut wanted = ByteRecord::new(alloc);
    for place in places {
        wanted.push_field(field_at(row, *place))?;
    }
    Ok(wanted)
}

/// A fault in a row of a table.
pub(crate) fn fault(code: TableCode, table: Table, row: u32) -> TableFault
    ensures { result ≡ fault_at code table row }
{
    TableFault::At {
        code,
        table,
        row,
        wkt: None,
    }
}

/// The fault that stopped the rows of a table behind the one of a number.
fn fault_of(stop: Stop, table: Table, number: u32) -> TableFault
    requires { number ≤ most_rows }
    ensures { result ≡ stop_fault table number stop }
{
    match stop {
        Stop::Memory => TableFault::Memory,
        Stop::At(code) => fault(code, table, number + 1),
    }
}

/// Stops the rows of a table behind the one of a number. The answer is the fault that does.
fn stop_rows(stopped: &mut Option<Stop>, stop: Stop, table: Table, number: u32) -> TableFault
    requires { number ≤ most_rows }
    ensures stopped { stopped.new ≡ Some stop }
    ensures fault { result ≡ stop_fault table number stop }
{
    *stopped = Some(stop);
    fault_of(stop, table, number)
}

impl<'a> TableReader<'a> {
    /// A reader of the wanted columns of a table. The first record is the header, in which the name
    /// of each of `columns` stands once, and that of each of `further` at most once, in any mix of
    /// ASCII cases. One byte order mark at the start is skipped.
    ///
    /// A refusal is a fault of row 0, or out of memory.
    pub fn open(
        alloc: Global,
        bytes: &'a [u8],
        table: Table,
        columns: &[&[u8]],
        further: &[&[u8]],
    ) -> Result<TableReader<'a>, TableFault>
        ensures { Answers result
            (table_of table (texts columns.now) (texts further.now) bytes.now) }
    {
        let text = without_mark(bytes);
        if starts_with_mark(text) {
            return Err(fault(TableCode::NotCsv, table, 0));
        }
        let mut header = ByteRecord::new(alloc);
        match Records::open(alloc, text, &mut header)? {
            Some(records) => {
                let places = column_places(alloc, &header, table, columns, further)?;
                Ok(TableReader {
                    records,
                    current: header,
                    places,
                    table,
                    number: 0,
                    stopped: None,
                })
            }
            None => Err(fault(TableCode::MissingColumn, table, 0)),
        }
    }

    /// Reads the next row. `Ok(false)` is the end of the table, which the next call finds again; a
    /// refusal is the fault that stops the rows, or out of memory, and the next call answers it
    /// again.
    pub fn next_row(&mut self) -> Result<bool, TableFault>
        ensures { Advances self.old self.new result }
    {
        match self.stopped {
            Some(stop) => return Err(fault_of(stop, self.table, self.number)),
            None => {}
        }
        match self.records.next(&mut self.current) {
            Ok(Step::End) => Ok(false),
            Ok(Step::Uneven) => {
                let stop = Stop::At(TableCode::NotCsv);
                Err(stop_rows(&mut self.stopped, stop, self.table, self.number))
            }
            Ok(Step::Record) => {
                if self.number == MOST_ROWS {
                    let stop = Stop::At(TableCode::TooManyRows);
                    return Err(stop_rows(&mut self.stopped, stop, self.table, self.number));
                }
                self.number += 1;
                Ok(true)
            }
            Err(_) => Err(stop_rows(&mut self.stopped, Stop::Memory, self.table, self.number)),
        }
    }

    /// For each wanted column whether the header has it.
    pub(crate) fn columns_there(&self, alloc: Global) -> Result<Vec<bool>, AllocError>
        ensures { IfOk result (λ has. has.items ≡ self.now.has) }
    {
        let mut has = Vec::new(alloc);
        for place in self.places.as_slice() {
            has.push(place.is_some())?;
        }
        Ok(has)
    }

    /// Whether the header has the k-th wanted column, from 0: first come those that must be there,
    /// and then those that may be absent.
    pub fn has_column(&self, k: usize) -> bool
        ensures { result ≡ has_column self.now.has k }
    {
        place_at(&self.places, k).is_some()
    }

    /// The k-th wanted field of the row that was read last, where the header has its column.
    pub fn optional_field(&self, k: usize) -> Option<&[u8]>
        ensures { option_map (λ field. field.now) result ≡ optional_field self.now.row k }
    {
        match place_at(&self.places, k) {
            Some(index) => Some(self.current.get(index).unwrap_or(&[])),
            None => None,
        }
    }

    /// The k-th wanted field, from 0, of the row that was read last; empty where the header has not
    /// its column, and past the wanted columns.
    pub fn field(&self, k: usize) -> &[u8]
        ensures { result.now ≡ field_of self.now.row k }
    {
        self.optional_field(k).unwrap_or(&[])
    }

    /// A copy of the wanted fields of the row that was read last.
    pub(crate) fn copy_row(&self, alloc: Global) -> Result<ByteRecord, AllocError>
        ensures { IfOk result (λ r. fields_of r ≡ flat self.now.row) }
    {
        picked_row(alloc, &self.current, &self.places)
    }

    /// A fault in the row that was read last.
    pub(crate) fn fault(&self, code: TableCode) -> TableFault
        ensures { result ≡ fault_at code self.now.table self.now.number }
    {
        fault(code, self.table, self.number)
    }

    /// The fault of a text in the row that was read last, which is no polygon.
    pub(crate) fn geometry_fault(&self, wkt: WktFault) -> TableFault
        ensures { result ≡ At BadGeometry self.now.table self.now.number (Some wkt) }
    {
        TableFault::At {
            code: TableCode::BadGeometry,
            table: self.table,
            row: self.number,
            wkt: Some(wkt),
        }
    }
}
