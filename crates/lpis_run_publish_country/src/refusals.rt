//! The lines of a country that the register refuses.

ghost use Rattle.std.specs.Prelude.{◌≡◌, IfOk, List, length, map};
ghost use Rattle.std.specs.Option.{option_map};
ghost use Rattle.std.specs.String.{string_bytes};
ghost use Rattle.lpis_lineage.specs.declared.row.Row.{Row};
ghost use Rattle.lpis_run.specs.Status.{refused};
ghost use Rattle.lpis_run_publish_country.specs.CountryLineage.{country_refusal_text, row_place};
ghost use Rattle.lpis_lineage.specs.declared.fault.LineageFault.TheVariants.{OfRow};
ghost use Rattle.lpis_register.specs.declared.fault.PublishFault.TheVariants.{Lineage};

use lpis_lineage::{LineageCode, LineageFault};
use lpis_register::PublishFault;
use lpis_run::{Answer, REFUSED};
use lpis_run_publish::refuse;
use std::alloc::{AllocError, Global};

/// The folder of the table in which a row of the country stands, and its number there. The tables
/// of these folders have so many rows.
fn place_in<'a>(names: &'a [String], counts: &[usize], row: usize) -> Option<(&'a str, usize)>
    ensures { (tables : List (List Row))
        → counts.now ≡ map (λ (rows : List Row). length rows) tables
        → option_map (λ p. (p.0.now, p.1)) result
        ≡ row_place (map string_bytes names.now) tables row }
{
    let mut left = row;
    for index in 0..names.len().min(counts.len()) {
        if left <= counts[index] {
            return Some((names[index].as_str(), left));
        }
        left -= counts[index];
    }
    None
}

/// The line of a lineage that is refused for a row.
fn refuse_row(
    alloc: Global,
    code: LineageCode,
    row: usize,
    names: &[String],
    counts: &[usize],
) -> Result<Answer, AllocError>
    ensures { (tables : List (List Row))
        → counts.now ≡ map (λ (rows : List Row). length rows) tables
        → IfOk result (λ a. (a.text.items
        ≡ country_refusal_text (map string_bytes names.now) tables (Lineage (OfRow code row)))
        × (a.status ≡ refused)) }
{
    match place_in(names, counts, row) {
        Some((name, row)) => {
            let fault = PublishFault::Lineage(LineageFault::OfRow(code, row));
            refuse(alloc, &fault, REFUSED)?.in_region(name)
        }
        None => {
            let fault = PublishFault::Lineage(LineageFault::OfRow(code, row));
            refuse(alloc, &fault, REFUSED)
        }
    }
}

/// The line of a country that the register refuses, whose folders have these names and tables of so
/// many rows.
pub(crate) fn refuse_country(
    alloc: Global,
    fault: PublishFault,
    names: &[String],
    counts: &[usize],
) -> Result<Answer, AllocError>
    ensures { (tables : List (List Row))
        → counts.now ≡ map (λ (rows : List Row). length rows) tables
        → IfOk result (λ a. (a.text.items
        ≡ country_refusal_text (map string_bytes names.now) tables fault)
        × (a.status ≡ refused)) }
{
    match fault {
        PublishFault::Lineage(LineageFault::OfRow(code, row)) => {
            refuse_row(alloc, code, row, names, counts)
        }
        fault => refuse(alloc, &fault, REFUSED),
    }
}
