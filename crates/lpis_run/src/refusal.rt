//! The lines of refusals.

ghost use Rattle.std.specs.Prelude.{OnOk};
ghost use Rattle.std.specs.Io.KnownBytes.{Appends};
ghost use Rattle.lpis_run.specs.Refusals.{cert_refusal_text, check_refusal_text};
ghost use Rattle.lpis_run.specs.Refusals.{location_text};
ghost use Rattle.lpis_run.specs.Refusals.{refusal_text, region_end, wkt_text};

use crate::printing::PrintFault;
use lpis_cert::CertFault;
use lpis_checker::{CheckFault, Location};
use lpis_tables::TableFault;
use lpis_wkt::WktFault;
use std::io::Write;

/// Writes where a text is no polygon, if a row has such a text.
fn print_wkt_fault<W: Write>(wkt: &Option<WktFault>, out: &mut W) -> Result<(), PrintFault>
    ensures { OnOk result (Appends (W.contents out.old) (W.contents out.new) (wkt_text wkt.now)) }
{
    let Some(WktFault::At { code, offset }) = wkt else {
        return Ok(());
    };
    write!(out, " wkt {} at {offset}", code.as_str())?;
    Ok(())
}

/// Writes the line of a refused table. Out of memory is no refusal, and has no line.
pub fn print_table_fault<W: Write>(fault: &TableFault, out: &mut W) -> Result<(), PrintFault>
    ensures { OnOk result (Appends (W.contents out.old) (W.contents out.new)
        (refusal_text fault.now)) }
{
    let TableFault::At {
        code,
        table,
        row,
        wkt,
    } = fault
    else {
        return Ok(());
    };
    write!(
        out,
        "refused {} {} row {row}",
        code.as_str(),
        table.as_str()
    )?;
    print_wkt_fault(wkt, out)?;
    out.write_all(b"\n")?;
    Ok(())
}

/// Writes the line of a text that is no certificate. Out of memory is no refusal, and has no line.
pub fn print_cert_fault<W: Write>(fault: &CertFault, out: &mut W) -> Result<(), PrintFault>
    ensures { OnOk result (Appends (W.contents out.old) (W.contents out.new)
        (cert_refusal_text fault.now)) }
{
    let CertFault::At { code, line } = fault else {
        return Ok(());
    };
    write!(out, "refused {} cert line {line}\n", code.as_str())?;
    Ok(())
}

/// Writes where a condition fails.
fn print_location<W: Write>(location: &Location, out: &mut W) -> Result<(), PrintFault>
    ensures { OnOk result (Appends (W.contents out.old) (W.contents out.new)
        (location_text location.now)) }
{
    match location {
        Location::Piece(id) => write!(out, "piece {}", id.as_str())?,
        Location::Parcel(id) => write!(out, "parcel {}", id.as_str())?,
        Location::Pair(i, j) => write!(out, "pair {i} {j}")?,
    }
    Ok(())
}

/// Writes the line of a certificate that is not good. Out of memory is no refusal, and has no
/// line.
pub fn print_check_fault<W: Write>(fault: &CheckFault, out: &mut W) -> Result<(), PrintFault>
    ensures { OnOk result (Appends (W.contents out.old) (W.contents out.new)
        (check_refusal_text fault.now)) }
{
    let CheckFault::At { code, place } = fault else {
        return Ok(());
    };
    write!(out, "refused {} ", code.as_str())?;
    print_location(place, out)?;
    out.write_all(b"\n")?;
    Ok(())
}

/// Writes the region that a line is of, and the line's end.
pub fn print_region<W: Write>(region: &str, out: &mut W) -> Result<(), PrintFault>
    ensures { OnOk result (Appends (W.contents out.old) (W.contents out.new)
        (region_end region.now)) }
{
    write!(out, " region {region}\n")?;
    Ok(())
}
