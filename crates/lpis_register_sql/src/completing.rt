//! The tables that are not there, made: all of a new register, or those that lack beside the ones
//! that hold rows.

ghost use Rattle.std.specs.Prelude.{◌≡◌};
ghost use Rattle.std.specs.List.{flat_map};
ghost use Rattle.lpis_register_sql.specs.Making.{completing_statements, unless};
ghost use Rattle.lpis_register_sql.specs.Within.{Makes};

use crate::found::Found;
use crate::statements::run;
use sqlite::{Alter, Error, Transaction};

/// The table of the version.
const MAKE_FORMAT: &str =
    "CREATE TABLE IF NOT EXISTS lpis_format (one INTEGER NOT NULL PRIMARY KEY, version INTEGER NOT NULL) STRICT";

/// The table of releases.
const MAKE_RELEASE: &str =
    "CREATE TABLE IF NOT EXISTS lpis_release (year INTEGER NOT NULL PRIMARY KEY) STRICT";

/// The table of spans.
const MAKE_SPAN: &str =
    "CREATE TABLE IF NOT EXISTS lpis_span (id TEXT NOT NULL PRIMARY KEY, since INTEGER NOT NULL REFERENCES lpis_release (year), until INTEGER NOT NULL) STRICT";

/// The table of rows of lineage.
const MAKE_ROW: &str =
    "CREATE TABLE IF NOT EXISTS lpis_row (year INTEGER NOT NULL REFERENCES lpis_release (year), pos INTEGER NOT NULL, old TEXT NOT NULL, new TEXT NOT NULL, PRIMARY KEY (year, pos)) STRICT";

/// The table of the texts of shapes.
const MAKE_TEXT: &str =
    "CREATE TABLE IF NOT EXISTS lpis_text (id TEXT NOT NULL PRIMARY KEY, wkt TEXT NOT NULL) STRICT";

/// The table of the rows of lineage that are marked exact.
const MAKE_MARK: &str =
    "CREATE TABLE IF NOT EXISTS lpis_mark (year INTEGER NOT NULL, pos INTEGER NOT NULL, PRIMARY KEY (year, pos), FOREIGN KEY (year, pos) REFERENCES lpis_row (year, pos)) STRICT";

/// The row that tells version 3.
const INSERT_FORMAT: &str = "INSERT INTO lpis_format (one, version) VALUES (1, 3)";

/// Makes a statement where its table was not found.
fn make_unless<S: Alter>(tx: &mut Transaction<'_, S>, found: bool, text: &str) -> Result<(), Error>
    ensures same_reference { tx.new.conn.ghost_name ≡ tx.old.conn.ghost_name }
    ensures makes { Makes S.Store (unless found text.now)
        tx.old.conn.now tx.new.conn.now result }
{
    if found { Ok(()) } else { run(tx, text, &[]) }
}

/// Makes those of these statements, in turn, whose tables were not found.
fn make_missing<S: Alter>(
    tx: &mut Transaction<'_, S>,
    statements: &[(bool, &str)],
) -> Result<(), Error>
    ensures same_reference { tx.new.conn.ghost_name ≡ tx.old.conn.ghost_name }
    ensures makes { Makes S.Store (flat_map (λ it. unless it.0 it.1.now) statements.now)
        tx.old.conn.now tx.new.conn.now result }
{
    for statement in statements {
        make_unless(tx, statement.0, statement.1)?;
    }
    Ok(())
}

/// The tables that are not there, each empty, and the version, where it was not told.
pub(crate) fn complete<S: Alter>(tx: &mut Transaction<'_, S>, found: &Found) -> Result<(), Error>
    ensures same_reference { tx.new.conn.ghost_name ≡ tx.old.conn.ghost_name }
    ensures makes { Makes S.Store (completing_statements found.now)
        tx.old.conn.now tx.new.conn.now result }
{
    let statements = [
        (found.format, MAKE_FORMAT),
        (found.years, MAKE_RELEASE),
        (found.spans, MAKE_SPAN),
        (found.lines, MAKE_ROW),
        (found.texts, MAKE_TEXT),
        (found.marks, MAKE_MARK),
        (found.format, INSERT_FORMAT),
    ];
    make_missing(tx, &statements)
}
