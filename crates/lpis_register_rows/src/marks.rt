//! Lines with their marks.

ghost use Rattle.std.specs.Prelude.{◌≡◌, ◌≤◌, List, length, drop, map, IfErr, IfOk};
ghost use Rattle.std.specs.Prelude.{IsPermutation, IsSorted};
ghost use Rattle.lpis_lineage.specs.declared.row.Entry.{Entry};
ghost use Rattle.lpis_register_rows.specs.declared.fault.RowsFault.TheVariants.{Unlawful};
ghost use Rattle.lpis_register_rows.specs.Histories.{IsKeptHistory, lineage_lines, marks_of};
ghost use Rattle.lpis_register_rows.specs.private.Known.{known_of, line_in};
ghost use Rattle.lpis_register_rows.specs.private.Marking.{is_next, mark_cmp, marks_in, unused};
ghost use Rattle.lpis_register_rows.specs.private.Marking.{walked};

use crate::fault::RowsFault;
use crate::known::{KnownLine, read_lines};
use crate::rows::{LineRow, MarkRow};
use std::alloc::{AllocError, Global};

/// Copies of the marks, in their order.
fn copied(alloc: Global, marks: &[MarkRow]) -> Result<Vec<MarkRow>, AllocError>
    ensures { IfOk result (λ v. v.items ≡ marks.now) }
{
    let mut copies = Vec::with_capacity(alloc, marks.len())?;
    for mark in marks {
        let year = mark.year;
        let position = mark.position;
        copies.push(MarkRow { year, position })?;
    }
    Ok(copies)
}

/// Copies of the marks, by year and in it by position.
fn sorted(alloc: Global, marks: &[MarkRow]) -> Result<Vec<MarkRow>, AllocError>
    ensures same { IfOk result (λ v. IsPermutation marks.now v.items) }
    ensures sorted { IfOk result (λ v. IsSorted mark_cmp v.items) }
{
    let mut copies = copied(alloc, marks)?;
    copies.sort_unstable_by_key(|mark| (mark.year, mark.position));
    Ok(copies)
}

/// Whether there is a mark at a position, and it names the line.
fn is_named(line: &KnownLine, marks: &[MarkRow], next: usize) -> bool
    ensures { result ≡ is_next (drop next marks.now) line.now }
{
    match marks.get(next) {
        Some(mark) => mark.year == line.year && mark.position == line.position,
        None => false,
    }
}

/// Marks each line that the next mark names; how many marks are used.
fn mark_lines(lines: &mut [KnownLine], marks: &[MarkRow]) -> usize
    ensures lines { lines.new ≡ walked marks.now lines.old }
    ensures used { drop result marks.now ≡ unused marks.now lines.old }
    ensures within { result ≤ length marks.now }
{
    let mut next = 0;
    for line in lines.iter_mut() {
        let named = is_named(line, marks, next);
        line.row.exact = named;
        if named {
            next += 1;
        }
    }
    next
}

/// The lines with their rows, each marked where a mark names it, by year and in it by position.
/// `Unlawful` only where no history has these lines and marks.
pub(crate) fn marked_lines(
    alloc: Global,
    lines: &[LineRow],
    marks: &[MarkRow],
) -> Result<Vec<KnownLine>, RowsFault>
    ensures same { IfOk result (λ v. IsPermutation lines.now (map line_in v.items)) }
    ensures marks { IfOk result (λ v. IsPermutation marks.now (marks_in v.items)) }
    ensures told { IfOk result (λ v. (h : List Entry) → IsKeptHistory h
        → IsPermutation lines.now (lineage_lines h) → IsPermutation marks.now (marks_of h)
        → known_of h ≡ v.items) }
    ensures refused { IfErr result (λ e. e ≡ Unlawful → (h : List Entry) → IsKeptHistory h
        → IsPermutation lines.now (lineage_lines h) → IsPermutation marks.now (marks_of h) → ⊥) }
{
    let mut known = read_lines(alloc, lines)?;
    let marks = sorted(alloc, marks)?;
    let used = mark_lines(known.as_mut_slice(), marks.as_slice());
    // The rest name no line.
    if used < marks.len() {
        return Err(RowsFault::Unlawful);
    }
    Ok(known)
}
