//! The lines of a publication.

ghost use Rattle.std.specs.Prelude.{◌≡◌, ◌||◌, ◌&&◌, IfOk, List, OnOk, ℕ};
ghost use Rattle.std.specs.Io.KnownBytes.{Appends};
ghost use Rattle.std.specs.List.{flat_map};
ghost use Rattle.lpis_tables.specs.Ids.{has_id};
ghost use Rattle.lpis_lineage.specs.Changes.{kind_at};
ghost use Rattle.lpis_lineage.specs.Lineage.{is_row_of};
ghost use Rattle.lpis_register.specs.declared.fault.PublishFault.TheVariants.{Lineage};
ghost use Rattle.lpis_run_publish.specs.LineageLines.{exact_refusal_text, exact_suffix, fate_text};
ghost use Rattle.lpis_run_publish.specs.LineageLines.{kind_text, lineage_fault_text, lineage_line};
ghost use Rattle.lpis_run_publish.specs.LineageLines.{publish_refusal_text, published_line};
ghost use Rattle.lpis_run_publish.specs.private.Marked.{is_marked};

use lpis_checker::ExactFault;
use lpis_lineage::{Change, Kind, LineageFault, Row};
use lpis_register::PublishFault;
use lpis_run::{Answer, PrintFault};
use lpis_tables::Id;
use std::alloc::{AllocError, Global};
use std::collections::HashSet;
use std::io::Write;

/// The word for what became of an identifier.
fn kind_word(kind: Kind) -> &'static str
    ensures { result.now ≡ kind_text kind }
{
    match kind {
        Kind::Kept => "kept",
        Kind::Split => "split",
        Kind::Merged => "merged",
        Kind::Replaced => "replaced",
        Kind::Redrawn => "redrawn",
        Kind::Ended => "ended",
    }
}

/// The word for what became of an identifier of the last release, which others have not.
fn fate_word(kind: Option<Kind>) -> &'static str
    ensures { result.now ≡ fate_text kind }
{
    match kind {
        Some(kind) => kind_word(kind),
        None => "",
    }
}

/// Adds the old identifier of a row that is marked.
fn note_mark(marked: &mut HashSet<Id>, row: &Row) -> Result<(), AllocError>
    ensures { OnOk result ((id : List ℕ) → has_id marked.new.keys id
        ≡ (has_id marked.old.keys id || (is_row_of id row.now && row.now.exact))) }
{
    if row.exact {
        let id = row.old.copy()?;
        marked.insert(id)?;
    }
    Ok(())
}

/// The identifiers of which a row is marked.
pub(crate) fn marked_ids(alloc: Global, rows: &[Row]) -> Result<HashSet<Id>, AllocError>
    ensures { IfOk result (λ s. (id : List ℕ) → has_id s.keys id ≡ is_marked rows.now id) }
{
    let mut marked = HashSet::new(alloc);
    for row in rows {
        note_mark(&mut marked, row)?;
    }
    Ok(marked)
}

/// The end of the line of an identifier.
fn exact_word(is_exact: bool) -> &'static str
    ensures { result.now ≡ exact_suffix is_exact }
{
    if is_exact { " exact" } else { "" }
}

/// Writes the line of a dropped identifier, of which a row may be marked.
fn print_dropped<W: Write>(
    change: &Change,
    marked: &HashSet<Id>,
    id: &Id,
    out: &mut W,
) -> Result<(), PrintFault>
    ensures { OnOk result (Appends (W.contents out.old) (W.contents out.new)
        (lineage_line (kind_at change.now) (has_id marked.now.keys) id.now)) }
{
    let word = fate_word(change.kind_of(id));
    let mark = exact_word(marked.contains(id));
    write!(out, "lineage {} {word}{mark}\n", id.as_str())?;
    Ok(())
}

/// Writes the line of each identifier that a change drops; these are the ones of which a row is
/// marked.
pub(crate) fn print_lineage<W: Write>(
    change: &Change,
    marked: &HashSet<Id>,
    out: &mut W,
) -> Result<(), PrintFault>
    ensures { OnOk result (Appends (W.contents out.old) (W.contents out.new)
        (flat_map (lineage_line (kind_at change.now) (has_id marked.now.keys))
        change.now.dropped_ids)) }
{
    let dropped = change.dropped();
    for id in dropped {
        print_dropped(change, marked, id, out)?;
    }
    Ok(())
}

/// Writes the line of a published year.
pub(crate) fn print_published<W: Write>(year: u16, out: &mut W) -> Result<(), PrintFault>
    ensures { OnOk result
        (Appends (W.contents out.old) (W.contents out.new) (published_line year)) }
{
    write!(out, "published {year}\n")?;
    Ok(())
}

/// Writes a fault of a lineage. Out of memory is none, and has no text.
fn print_lineage_fault<W: Write>(fault: &LineageFault, out: &mut W) -> Result<(), PrintFault>
    ensures { OnOk result (Appends (W.contents out.old) (W.contents out.new)
        (lineage_fault_text fault.now)) }
{
    match fault {
        LineageFault::Memory => {}
        LineageFault::OfRow(code, row) => write!(out, "lineage {} row {row}", code.as_str())?,
        LineageFault::NoRow { id } => write!(out, "lineage 75 {}", id.as_str())?,
        LineageFault::UsedBefore { id, year } => write!(out, "lineage 76 {} {year}", id.as_str())?,
    }
    Ok(())
}

/// Writes the line of a refused lineage.
fn print_lineage_refusal<W: Write>(fault: &LineageFault, out: &mut W) -> Result<(), PrintFault>
    ensures { OnOk result (Appends (W.contents out.old) (W.contents out.new)
        (publish_refusal_text (Lineage fault.now))) }
{
    out.write_all(b"refused 81 ")?;
    print_lineage_fault(fault, out)?;
    out.write_all(b"\n")?;
    Ok(())
}

/// Writes the line of a certificate whose blocks do not show what marked rows ask for. Out of
/// memory is no refusal, and has no line.
fn print_exact_refusal<W: Write>(fault: &ExactFault, out: &mut W) -> Result<(), PrintFault>
    ensures { OnOk result (Appends (W.contents out.old) (W.contents out.new)
        (exact_refusal_text fault.now)) }
{
    let ExactFault::At { code, id } = fault else {
        return Ok(());
    };
    write!(out, "refused 85 exact {} {}\n", code.as_str(), id.as_str())?;
    Ok(())
}

/// Writes the line of a refusal of the register. Out of memory and a failed store are no
/// refusals, and have no line.
pub fn print_publish_fault<W: Write>(fault: &PublishFault, out: &mut W) -> Result<(), PrintFault>
    ensures { OnOk result (Appends (W.contents out.old) (W.contents out.new)
        (publish_refusal_text fault.now)) }
{
    match fault {
        PublishFault::Memory | PublishFault::Store | PublishFault::StoreMemory => {}
        PublishFault::Year { last } => write!(out, "refused 80 last {last}\n")?,
        PublishFault::Lineage(lineage) => print_lineage_refusal(lineage, out)?,
        PublishFault::NotKept { id } => write!(out, "refused 81 lineage 77 {}\n", id.as_str())?,
        PublishFault::Exact(exact) => print_exact_refusal(exact, out)?,
        PublishFault::Unknown => out.write_all(b"refused 83\n")?,
        PublishFault::Unlawful => out.write_all(b"refused 84\n")?,
    }
    Ok(())
}

/// The line of a refusal of the register, with this status.
pub fn refuse(alloc: Global, fault: &PublishFault, status: u8) -> Result<Answer, AllocError>
    ensures { IfOk result (λ a. (a.text.items ≡ publish_refusal_text fault.now) ×
        (a.status ≡ status)) }
{
    let mut text = Vec::new(alloc);
    let printed = print_publish_fault(fault, &mut text);
    Answer::of(text, status, printed)
}
