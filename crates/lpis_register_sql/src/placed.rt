//! Rows of lineage at their positions.

ghost use Rattle.std.specs.Prelude.{◌≡◌, ◌+◌, ◌<◌, ◌^◌, ◌∷◌, [], MatchOption, length};

use lpis_lineage::Row;

/// A row of lineage of a year's release, at its position.
#[derive(Clone, Copy)]
pub(crate) struct Placed<'a> {
    pub year: u32,
    pub position: usize,
    pub row: &'a Row,
    pub ghost small: { position < 2 ^ 63 },
}

/// The rows of a release from a position on.
#[derive(Clone, Copy)]
pub(crate) struct RowsFrom<'a> {
    pub position: usize,
    pub rows: &'a [Row],
    pub ghost room: { position + length rows.now < 2 ^ 63 },
}

/// The first of rows, and those after it.
pub(crate) fn next_placed(year: u32, rest: RowsFrom<'_>) -> Option<(Placed<'_>, RowsFrom<'_>)>
    ensures first { MatchOption result (rest.entry.rows.now ≡ [])
        (λ it. rest.entry.rows.now ≡ it.0.row.now ∷ it.1.rows.now) }
    ensures place { MatchOption result (Unit {0}) (λ it. (it.0.year ≡ year)
        × (it.0.position ≡ rest.entry.position) × (it.1.position ≡ rest.entry.position + 1)) }
{
    match rest.rows.split_first() {
        Some((row, rows)) => {
            let placed = Placed {
                year,
                position: rest.position,
                row,
            };
            let after = RowsFrom {
                position: rest.position + 1,
                rows,
            };
            Some((placed, after))
        }
        None => None,
    }
}
