//! The lines of points, and of a table of points that is refused.

ghost use Rattle.std.specs.Prelude.{◌≡◌, ◌++◌, IfOk, Ok, OnOk, codes, length};
ghost use Rattle.std.specs.Io.KnownBytes.{Appends};
ghost use Rattle.lpis_release.specs.Release.{Contents};
ghost use Rattle.lpis_run.specs.Status.{done, unreadable};
ghost use Rattle.lpis_places.specs.declared.fault.PointsFault.TheVariants.{Number, Table};
ghost use Rattle.lpis_run_locate.specs.LocateAnswer.{IsPointsAnswer};
ghost use Rattle.lpis_run_locate.specs.LocateLines.{place_text, point_line};
ghost use Rattle.lpis_run_locate.specs.private.Found.{AreFound};
ghost use Rattle.lpis_run_locate.specs.LocateLines.{points_refusal_text};
ghost use Rattle.lpis_run_locate.specs.private.Lines.{lines_of};

use lpis_places::{Axis, GivenPoint, Place, PointsFault};
use lpis_run::{Answer, DONE, PrintFault, UNREADABLE};
use lpis_tables::{Id, TableCode};
use lpis_wkt::WktCode;
use std::alloc::{AllocError, Global};
use std::io::Write;

/// For how many bytes of a line room is made at once. Where lines are longer the text grows.
const LINE_ROOM: usize = 64;

/// Adds bytes to a text.
fn add_bytes(bytes: &[u8], text: &mut Vec<u8>) -> Result<(), AllocError>
    ensures { OnOk result (text.new.items ≡ text.old.items ++ bytes.now) }
{
    text.extend_from_slice(bytes)
}

/// Adds an identifier to a text, after what stands before it.
fn add_id(before: &[u8], id: &Id, text: &mut Vec<u8>) -> Result<(), AllocError>
    ensures { OnOk result (text.new.items ≡ text.old.items ++ (before.now ++ id.now)) }
{
    add_bytes(before, text)?;
    add_bytes(id.as_bytes(), text)
}

/// Adds where a point is to a text, up to the end of its line.
fn add_place(found: &Option<Place>, text: &mut Vec<u8>) -> Result<(), AllocError>
    ensures { OnOk result (text.new.items ≡ text.old.items ++ place_text found.now) }
{
    match found {
        Some(place) => {
            add_id(b" parcel ", &place.parcel, text)?;
            add_id(b" piece ", &place.piece, text)?;
            add_id(b" class ", &place.class, text)?;
            add_bytes(b"\n", text)
        }
        None => add_bytes(b" nowhere\n", text),
    }
}

/// Adds the line of a point to a text.
fn add_line(point: &GivenPoint, found: &Option<Place>, text: &mut Vec<u8>) -> Result<(), AllocError>
    ensures { OnOk result (text.new.items ≡ text.old.items ++ point_line point.now.id found.now) }
{
    add_id(b"point ", point.id(), text)?;
    add_place(found, text)
}

/// The lines of points, and the yes.
fn lines_of(
    alloc: Global,
    points: &[GivenPoint],
    found: &[Option<Place>],
) -> Result<Vec<u8>, AllocError>
    requires { length found.now ≡ length points.now }
    ensures { IfOk result (λ v. v.items ≡ lines_of points.now found.now ++ codes "yes\n") }
{
    let mut text = Vec::with_capacity(alloc, points.len().saturating_mul(LINE_ROOM))?;
    for i in 0..points.len() {
        add_line(&points[i], &found[i], &mut text)?;
    }
    add_bytes(b"yes\n", &mut text)?;
    Ok(text)
}

/// The text of points and what was found of them.
fn text_of_points(
    alloc: Global,
    points: &[GivenPoint],
    found: &[Option<Place>],
) -> Result<Answer, AllocError>
    requires { length found.now ≡ length points.now }
    ensures { IfOk result (λ a. (a.text.items ≡ lines_of points.now found.now ++ codes "yes\n")
        × (a.status ≡ done)) }
{
    let text = lines_of(alloc, points, found)?;
    Ok(Answer { text, status: DONE })
}

/// The lines of points, of which this was found, and the yes.
pub fn report_points(
    alloc: Global,
    points: &[GivenPoint],
    found: &[Option<Place>],
) -> Result<Answer, AllocError>
    requires { length found.now ≡ length points.now }
    ensures { (r : Contents) → AreFound r points.now found.now → IfOk result
        (λ a. IsPointsAnswer r (Ok points.now) (a.text.items, a.status)) }
{
    text_of_points(alloc, points, found)
}

/// Writes the line of a fault that any table may have.
fn print_table_fault<W: Write>(code: TableCode, row: u32, out: &mut W) -> Result<(), PrintFault>
    ensures { OnOk result (Appends (W.contents out.old) (W.contents out.new)
        (points_refusal_text (Table code row))) }
{
    write!(out, "refused {} points row {row}\n", code.as_str())?;
    Ok(())
}

/// Writes the line of a coordinate that is none.
fn print_number_fault<W: Write>(
    row: u32,
    axis: Axis,
    code: WktCode,
    out: &mut W,
) -> Result<(), PrintFault>
    ensures { OnOk result (Appends (W.contents out.old) (W.contents out.new)
        (points_refusal_text (Number row axis code))) }
{
    write!(
        out,
        "refused 3d points row {row} {} {}\n",
        axis.as_str(),
        code.as_str()
    )?;
    Ok(())
}

/// Writes the line of a table of points that is refused. Out of memory is no refusal, and has no
/// line.
fn print_points_fault<W: Write>(fault: PointsFault, out: &mut W) -> Result<(), PrintFault>
    ensures { OnOk result (Appends (W.contents out.old) (W.contents out.new)
        (points_refusal_text fault)) }
{
    match fault {
        PointsFault::Memory => Ok(()),
        PointsFault::Table { code, row } => print_table_fault(code, row, out),
        PointsFault::Number { row, axis, code } => print_number_fault(row, axis, code, out),
    }
}

/// The line of a table of points that is refused.
pub fn refuse_points(alloc: Global, fault: PointsFault) -> Result<Answer, AllocError>
    ensures { IfOk result (λ a. (a.text.items ≡ points_refusal_text fault)
        × (a.status ≡ unreadable)) }
{
    let mut text = Vec::new(alloc);
    let printed = print_points_fault(fault, &mut text);
    Answer::of(text, UNREADABLE, printed)
}
