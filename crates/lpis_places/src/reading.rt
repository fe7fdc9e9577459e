//! Reading a table of points.

ghost use Rattle.std.specs.Prelude.{◌≡◌, ◌+◌, [], ℤ, IfErr, IfOk, Err, Ok, OnOk, length, ◌≤◌};
ghost use Rattle.lpis_points.specs.RationalRange.{IsInRangeOver};
ghost use Rattle.lpis_tables.specs.Table.{most_rows};
ghost use Rattle.lpis_places.specs.Numbers.{parts};
ghost use Rattle.lpis_places.specs.Points.{Given, Reports, coordinate_in, id_in, point_in_row};
ghost use Rattle.lpis_places.specs.Points.{points_left, points_of};

use crate::fault::{Axis, PointsFault};
use crate::given::GivenPoint;
use crate::index::Points;
use crate::numbers::number;
use crate::spot::Spot;
use lpis_tables::{Id, Table, TableCode, TableReader};
use std::alloc::Global;

/// The most rows of a table, its header aside.
const MOST_ROWS: usize = 200_000;

/// The identifier that a field is.
fn id_of(alloc: Global, field: &[u8], row: u32) -> Result<Id, PointsFault>
    ensures { Reports (id_in row field.now) result }
{
    match Id::read(alloc, field)? {
        Some(id) => Ok(id),
        None => Err(PointsFault::Table {
            code: TableCode::BadIdentifier,
            row,
        }),
    }
}

/// The coordinate that a field spells.
fn coordinate(field: &[u8], row: u32, axis: Axis) -> Result<i64, PointsFault>
    ensures is { result ≡ coordinate_in row axis field.now }
    ensures range { IfOk result (IsInRangeOver parts) }
{
    match number(field) {
        Ok(value) => Ok(value),
        Err(code) => Err(PointsFault::Number { row, axis, code }),
    }
}

/// The point of the row that was read last, or its first fault.
fn point_read(alloc: Global, reader: &TableReader<'_>, row: u32) -> Result<GivenPoint, PointsFault>
    ensures { Reports (point_in_row row reader.now.row) result }
{
    let id = id_of(alloc, reader.field(0), row)?;
    let x = coordinate(reader.field(1), row, Axis::X)?;
    let y = coordinate(reader.field(2), row, Axis::Y)?;
    Ok(GivenPoint::new(id, Spot { x, y }))
}

/// Adds the points of the rows that are left of a table whose header alone was read to a list
/// without points.
fn add_points(
    alloc: Global,
    reader: &mut TableReader<'_>,
    points: &mut Vec<GivenPoint>,
) -> Result<(), PointsFault>
    requires header { reader.old.number ≡ 0 }
    requires empty { points.old.items ≡ [] }
    ensures fault { IfErr result
        (λ fault. Reports (points_left 1 reader.old) (Err fault)) }
    ensures points { OnOk result (points_left 1 reader.old ≡ Ok points.new.items) }
    ensures few { OnOk result (length points.new.items ≤ most_rows) }
{
    let mut row = 0;
    'rows: while reader.next_row()? {
        row += 1;
        let point = point_read(alloc, reader, row)?;
        points.push(point)?;
    }
    Ok(())
}

/// For how many rows room is made: one for each line feed, and no more than a table may have.
fn room_for_rows(bytes: &[u8]) -> usize {
    let lines = bytes.iter().filter(|b| **b == b'\n').count();
    lines.min(MOST_ROWS)
}

/// The points of the rows that are left of a table whose header alone was read, with room for so
/// many.
fn points_under_header(
    alloc: Global,
    reader: &mut TableReader<'_>,
    room: usize,
) -> Result<Vec<GivenPoint>, PointsFault>
    requires header { reader.old.number ≡ 0 }
    ensures fault { IfErr result
        (λ fault. Reports (points_left 1 reader.old) (Err fault)) }
    ensures points { IfOk result (λ v. points_left 1 reader.old ≡ Ok v.items) }
    ensures few { IfOk result (λ v. length v.items ≤ most_rows) }
{
    let mut points = Vec::with_capacity(alloc, room)?;
    add_points(alloc, reader, &mut points)?;
    Ok(points)
}

/// The points of a table with the columns `point`, `x` and `y`, in the order of its rows.
fn rows_of_points(alloc: Global, bytes: &[u8]) -> Result<Vec<GivenPoint>, PointsFault>
    ensures fault { IfErr result (λ fault. Reports (points_of bytes.now) (Err fault)) }
    ensures points { IfOk result (λ v. points_of bytes.now ≡ Ok v.items) }
    ensures few { IfOk result (λ v. length v.items ≤ most_rows) }
{
    let columns = [b"point".as_slice(), b"x".as_slice(), b"y".as_slice()];
    // A refusal does not name the table.
    let mut reader = TableReader::open(alloc, bytes, Table::Area, columns.as_slice(), &[])?;
    points_under_header(alloc, &mut reader, room_for_rows(bytes))
}

/// The points of a table with the columns `point`, `x` and `y`, or its first fault: of row 0; else
/// of a row, in the order of the rows and in it of the columns; else that which stops the rows. An
/// identifier may stand in several rows.
pub fn read_points(alloc: Global, bytes: &[u8]) -> Result<Points, PointsFault>
    ensures { Reports (points_of bytes.now) result }
{
    let given = rows_of_points(alloc, bytes)?;
    Ok(Points::of(alloc, given)?)
}
