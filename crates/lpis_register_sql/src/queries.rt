//! The tables of the register, one row type each.

use crate::found::Found;
use crate::reading::Stored;
use lpis_register_rows::{FormatRow, LineRow, LiveRow, MarkRow, SpanRow, TextRow};
use sqlite::{Error, Row};

impl Stored for FormatRow {
    ghost use Rattle.lpis_register_sql.specs.Showing.{format_columns};
    ghost use Rattle.lpis_register_sql.specs.StoredTables.{Formats};

    ghost table = { Formats };

    ghost columns = { format_columns };

    fn was_found(found: &Found) -> bool {
        found.format
    }

    fn query() -> &'static str {
        "SELECT one, version FROM lpis_format"
    }

    #[tactic(auto, using(crate::proofs::UnreadLemmas::misfit))]
    fn read(row: &Row) -> Result<FormatRow, Error> {
        let one = row.get(0)?;
        let version = row.get(1)?;
        Ok(FormatRow { one, version })
    }
}

/// A year of a release.
impl Stored for i64 {
    ghost use Rattle.lpis_register_sql.specs.Showing.{year_columns};
    ghost use Rattle.lpis_register_sql.specs.StoredTables.{Years};

    ghost table = { Years };

    ghost columns = { year_columns };

    fn was_found(found: &Found) -> bool {
        found.years
    }

    fn query() -> &'static str {
        "SELECT year FROM lpis_release"
    }

    #[tactic(auto, using(crate::proofs::UnreadLemmas::misfit_alone))]
    fn read(row: &Row) -> Result<i64, Error> {
        row.get(0)
    }
}

impl Stored for SpanRow {
    ghost use Rattle.lpis_register_sql.specs.Holding.{span_row};
    ghost use Rattle.lpis_register_sql.specs.StoredTables.{Spans};

    ghost table = { Spans };

    ghost columns = { span_row };

    fn was_found(found: &Found) -> bool {
        found.spans
    }

    fn query() -> &'static str {
        "SELECT id, since, until FROM lpis_span"
    }

    #[tactic(auto, using(crate::proofs::UnreadLemmas::misfit))]
    fn read(row: &Row) -> Result<SpanRow, Error> {
        let id = row.get(0)?;
        let since = row.get(1)?;
        let until = row.get(2)?;
        Ok(SpanRow { id, since, until })
    }
}

impl Stored for LineRow {
    ghost use Rattle.lpis_register_sql.specs.Holding.{line_row};
    ghost use Rattle.lpis_register_sql.specs.StoredTables.{Lines};

    ghost table = { Lines };

    ghost columns = { line_row };

    fn was_found(found: &Found) -> bool {
        found.lines
    }

    fn query() -> &'static str {
        "SELECT year, pos, old, new FROM lpis_row"
    }

    #[tactic(auto, using(crate::proofs::UnreadLemmas::misfit))]
    fn read(row: &Row) -> Result<LineRow, Error> {
        let year = row.get(0)?;
        let position = row.get(1)?;
        let old = row.get(2)?;
        let new = row.get(3)?;
        Ok(LineRow {
            year,
            position,
            old,
            new,
        })
    }
}

impl Stored for LiveRow {
    ghost use Rattle.lpis_register_sql.specs.Holding.{live_row};
    ghost use Rattle.lpis_register_sql.specs.StoredTables.{Lives};

    ghost table = { Lives };

    ghost columns = { live_row };

    fn was_found(found: &Found) -> bool {
        found.lives
    }

    fn query() -> &'static str {
        "SELECT year, id FROM lpis_live"
    }

    #[tactic(auto, using(crate::proofs::UnreadLemmas::misfit))]
    fn read(row: &Row) -> Result<LiveRow, Error> {
        let year = row.get(0)?;
        let id = row.get(1)?;
        Ok(LiveRow { year, id })
    }
}

impl Stored for TextRow {
    ghost use Rattle.lpis_register_sql.specs.Holding.{text_row};
    ghost use Rattle.lpis_register_sql.specs.StoredTables.{Texts};

    ghost table = { Texts };

    ghost columns = { text_row };

    fn was_found(found: &Found) -> bool {
        found.texts
    }

    fn query() -> &'static str {
        "SELECT id, wkt FROM lpis_text"
    }

    #[tactic(auto, using(crate::proofs::UnreadLemmas::misfit))]
    fn read(row: &Row) -> Result<TextRow, Error> {
        let id = row.get(0)?;
        let wkt = row.get(1)?;
        Ok(TextRow { id, wkt })
    }
}

impl Stored for MarkRow {
    ghost use Rattle.lpis_register_sql.specs.Holding.{mark_row};
    ghost use Rattle.lpis_register_sql.specs.StoredTables.{Marks};

    ghost table = { Marks };

    ghost columns = { mark_row };

    fn was_found(found: &Found) -> bool {
        found.marks
    }

    fn query() -> &'static str {
        "SELECT year, pos FROM lpis_mark"
    }

    #[tactic(auto, using(crate::proofs::UnreadLemmas::misfit))]
    fn read(row: &Row) -> Result<MarkRow, Error> {
        let year = row.get(0)?;
        let position = row.get(1)?;
        Ok(MarkRow { year, position })
    }
}
