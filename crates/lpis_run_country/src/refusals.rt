//! The lines of a country that is refused.

ghost use Rattle.std.specs.Prelude.{◌≡◌, ◌≢◌, [], IfOk, List, OnOk, get_or, map, ℕ};
ghost use Rattle.std.specs.Io.KnownBytes.{Appends};
ghost use Rattle.std.specs.String.{string_bytes};
ghost use Rattle.lpis_run.specs.Status.{refused, unreadable};
ghost use Rattle.lpis_run_country.specs.CountryLines.{plan_refusal_text, seam_refusal_text};
ghost use Rattle.lpis_country_seam.specs.declared.fault.SeamFault.TheVariants.{Classes, Memory};

use lpis_country_seam::SeamFault;
use lpis_run::{Answer, PrintFault, REFUSED, UNREADABLE, print_region};
use std::alloc::{AllocError, Global};
use std::io::Write;

/// The line of a text that is no plan.
pub(crate) fn refuse_plan(alloc: Global, line: u64) -> Result<Answer, AllocError>
    ensures { IfOk result (λ a. (a.text.items ≡ plan_refusal_text line)
        × (a.status ≡ unreadable)) }
{
    let mut text = Vec::new(alloc);
    match write!(text, "refused 90 country line {line}\n") {
        Ok(()) => Ok(Answer {
            text,
            status: UNREADABLE,
        }),
        Err(_) => Err(AllocError),
    }
}

/// The name of this number, or no name.
fn name_at(names: &[String], number: usize) -> &str
    ensures { result.now ≡ get_or (map string_bytes names.now) number [] }
{
    match names.get(number) {
        Some(name) => name.as_str(),
        None => "",
    }
}

/// Writes the line of a region whose classes differ from this row on.
fn print_classes_fault<W: Write>(row: usize, name: &str, out: &mut W) -> Result<(), PrintFault>
    ensures { (names : List (List ℕ)) → OnOk result (Appends (W.contents out.old)
        (W.contents out.new) (seam_refusal_text names name.now (Classes row))) }
{
    write!(out, "refused 96 classes row {row}")?;
    print_region(name, out)?;
    Ok(())
}

/// Writes the line of a region of this name that does not fit those before it. Out of memory is no
/// refusal, and answered as such.
fn print_seam_fault<W: Write>(
    names: &[String],
    name: &str,
    fault: &SeamFault,
    out: &mut W,
) -> Result<(), PrintFault>
    ensures line { OnOk result (Appends (W.contents out.old) (W.contents out.new)
        (seam_refusal_text (map string_bytes names.now) name.now fault.now)) }
    ensures refusal { OnOk result (fault.now ≢ Memory) }
{
    match fault {
        SeamFault::Memory => Err(PrintFault::Memory),
        SeamFault::Classes { row } => print_classes_fault(*row, name, out),
        SeamFault::At { code, id, region } => {
            write!(out, "refused {} parcel {}", code.as_str(), id.as_str())?;
            print_region(name_at(names, *region), out)
        }
    }
}

/// The line of a region of this name that does not fit those before it.
pub fn refuse_seam(
    alloc: Global,
    names: &[String],
    name: &str,
    fault: &SeamFault,
) -> Result<Answer, AllocError>
    ensures line { IfOk result (λ a. (a.text.items
        ≡ seam_refusal_text (map string_bytes names.now) name.now fault.now)
        × (a.status ≡ refused)) }
    ensures refusal { OnOk result (fault.now ≢ Memory) }
{
    let mut text = Vec::new(alloc);
    match print_seam_fault(names, name, fault, &mut text) {
        Ok(()) => Ok(Answer {
            text,
            status: REFUSED,
        }),
        Err(_) => Err(AllocError),
    }
}
