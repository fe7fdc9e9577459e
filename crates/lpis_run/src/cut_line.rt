//! The line of a release that gets no certificate.

ghost use Rattle.std.specs.Prelude.{OnOk};
ghost use Rattle.std.specs.Io.KnownBytes.{Appends};
ghost use Rattle.lpis_run.specs.CutRefusals.{cut_refusal_text, named_text, rational_text};

use crate::printing::PrintFault;
use lpis_cutter::Refusal;
use lpis_points::RatPoint;
use std::io::Write;

/// Writes a point by its three numbers: it is (x/d, y/d), in millimetres.
fn print_point<W: Write>(at: &RatPoint, out: &mut W) -> Result<(), PrintFault>
    ensures { OnOk result (Appends (W.contents out.old) (W.contents out.new)
        (rational_text at.now)) }
{
    let (x, y, d) = (at.x, at.y, at.d);
    write!(out, " at {x} {y} {d}")?;
    Ok(())
}

/// Writes what a refusal names, and the point where it has one.
fn print_named<W: Write>(refusal: &Refusal, out: &mut W) -> Result<(), PrintFault>
    ensures { OnOk result (Appends (W.contents out.old) (W.contents out.new)
        (named_text refusal.now)) }
{
    match refusal {
        Refusal::NoCut { piece } => write!(out, "piece {}", piece.as_str())?,
        Refusal::ParcelsOverlap { first, second, at } => {
            write!(out, "parcels {} {}", first.as_str(), second.as_str())?;
            print_point(at, out)?;
        }
        Refusal::PiecesOverlap { first, second, at } => {
            write!(out, "pieces {} {}", first.as_str(), second.as_str())?;
            print_point(at, out)?;
        }
        Refusal::NoSeparator { first, second } => {
            write!(out, "pieces {} {}", first.as_str(), second.as_str())?;
        }
        Refusal::Disagreement { parcel, at } => {
            write!(out, "parcel {}", parcel.as_str())?;
            print_point(at, out)?;
        }
        Refusal::NoFlats { parcel } => write!(out, "parcel {}", parcel.as_str())?,
    }
    Ok(())
}

/// Writes the line of a release that gets no certificate.
pub(crate) fn print_refusal<W: Write>(refusal: &Refusal, out: &mut W) -> Result<(), PrintFault>
    ensures { OnOk result (Appends (W.contents out.old) (W.contents out.new)
        (cut_refusal_text refusal.now)) }
{
    write!(out, "refused {} ", refusal.as_str())?;
    print_named(refusal, out)?;
    out.write_all(b"\n")?;
    Ok(())
}
