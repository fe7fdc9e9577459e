//! What writing a release does, one statement after the other.

ghost use Rattle.std.specs.Prelude.{◌≡◌, ◌<◌, ◌++◌, [], MatchOption, pos};
ghost use Rattle.lpis_register_rows.specs.Shapes.{text_edits};
ghost use Rattle.lpis_register_sql.specs.Stopping.{release_statements};
ghost use Rattle.lpis_register_sql.specs.private.StepStatements.{rows_left, rows_size, size_left};
ghost use Rattle.lpis_register_sql.specs.private.StepStatements.{spans_left, spans_size};
ghost use Rattle.lpis_register_sql.specs.private.StepStatements.{statements_in, statements_left};

use crate::placed::{Placed, RowsFrom, next_placed};
use lpis_lineage::Row;
use lpis_register_rows::{Edit, ShapeChange, next_edit};
use lpis_tables::Id;

/// A step of writing a release.
#[derive(Clone, Copy)]
pub(crate) enum Step<'a> {
    /// Its year.
    Year(u32),
    /// The span of an identifier ends with a year.
    Ends(u32, &'a Id),
    /// The span of an identifier begins with a year.
    Begins(u32, &'a Id),
    /// A row of lineage.
    Line(Placed<'a>),
    /// Its mark, where it is marked exact.
    Mark(Placed<'a>),
    /// What becomes of a text, if anything.
    Edit(Option<Edit<'a>>),
}

/// What is left to write of the year and of the spans.
#[derive(Clone, Copy)]
pub(crate) struct SpanSteps<'a> {
    /// The year is written.
    pub begun: bool,
    pub year: u32,
    /// The year of the last release, with which the spans of dropped identifiers end.
    pub last: u32,
    pub dropped: &'a [Id],
    pub fresh: &'a [Id],
}

/// What is left to write of the rows, of their marks and of the texts.
#[derive(Clone, Copy)]
pub(crate) struct RowSteps<'a> {
    pub year: u32,
    pub lines: RowsFrom<'a>,
    pub marks: RowsFrom<'a>,
    pub change: ShapeChange<'a>,
}

/// What is left to write of a release.
#[derive(Clone, Copy)]
pub(crate) struct Steps<'a> {
    pub spans: SpanSteps<'a>,
    pub rows: RowSteps<'a>,
}

/// The next step for the year and the spans.
fn next_span(rest: SpanSteps<'_>) -> Option<(Step<'_>, SpanSteps<'_>)>
    ensures statements { MatchOption result (spans_left rest.entry ≡ [])
        (λ it. spans_left rest.entry ≡ statements_in it.0 ++ spans_left it.1) }
    ensures shorter { MatchOption result (Unit {0})
        (λ it. spans_size it.1 < spans_size rest.entry) }
{
    if !rest.begun {
        let begun = SpanSteps {
            begun: true,
            ..rest
        };
        return Some((Step::Year(rest.year), begun));
    }
    match (rest.dropped.split_first(), rest.fresh.split_first()) {
        (Some((id, dropped)), _) => {
            Some((Step::Ends(rest.last, id), SpanSteps { dropped, ..rest }))
        }
        (None, Some((id, fresh))) => {
            Some((Step::Begins(rest.year, id), SpanSteps { fresh, ..rest }))
        }
        (None, None) => None,
    }
}

/// The next step for the rows, their marks and the texts.
fn next_row(rest: RowSteps<'_>) -> Option<(Step<'_>, RowSteps<'_>)>
    ensures statements { MatchOption result (rows_left rest.entry ≡ [])
        (λ it. rows_left rest.entry ≡ statements_in it.0 ++ rows_left it.1) }
    ensures shorter { MatchOption result (Unit {0})
        (λ it. rows_size it.1 < rows_size rest.entry) }
{
    if let Some((row, lines)) = next_placed(rest.year, rest.lines) {
        return Some((Step::Line(row), RowSteps { lines, ..rest }));
    }
    if let Some((row, marks)) = next_placed(rest.year, rest.marks) {
        return Some((Step::Mark(row), RowSteps { marks, ..rest }));
    }
    match next_edit(rest.change) {
        Some((edit, change)) => Some((Step::Edit(edit), RowSteps { change, ..rest })),
        None => None,
    }
}

/// The next step, and what is left then; `None` at the end.
pub(crate) fn next_step(rest: Steps<'_>) -> Option<(Step<'_>, Steps<'_>)>
    ensures statements { MatchOption result (statements_left rest.entry ≡ [])
        (λ it. statements_left rest.entry ≡ statements_in it.0 ++ statements_left it.1) }
    ensures shorter { MatchOption result (Unit {0})
        (λ it. size_left it.1 < size_left rest.entry) }
{
    match next_span(rest.spans) {
        Some((step, spans)) => Some((step, Steps { spans, ..rest })),
        None => match next_row(rest.rows) {
            Some((step, rows)) => Some((step, Steps { rows, ..rest })),
            None => None,
        },
    }
}

/// All steps of writing a release.
pub(crate) fn steps_of<'a>(
    year: u32,
    last: u32,
    dropped: &'a [Id],
    fresh: &'a [Id],
    rows: &'a [Row],
    change: ShapeChange<'a>,
) -> Steps<'a>
    ensures { statements_left result ≡ release_statements (pos year) (pos last) dropped.now
        fresh.now rows.now (text_edits change.entry.kept.now change.entry.shapes.now) }
{
    // Which is below 2^63.
    let _ = rows.len();
    let all = RowsFrom { position: 0, rows };
    Steps {
        spans: SpanSteps {
            begun: false,
            year,
            last,
            dropped,
            fresh,
        },
        rows: RowSteps {
            year,
            lines: all,
            marks: all,
            change,
        },
    }
}
