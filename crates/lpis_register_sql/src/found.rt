//! Which of the register's tables a database has.

ghost use Rattle.std.specs.Prelude.{◌≡◌, true, false};
ghost use Rattle.lpis_register_sql.specs.Hiding.{hides_table, is_table_name};
ghost use Rattle.lpis_register_sql.specs.Presence.{AreThere, completed, has_table, is_any, is_whole};

use sqlite_schema::names::same_name;
use sqlite_schema::schema::Schema;

/// The tables of the register that stand in a database.
#[derive(Clone, Copy)]
pub struct Found {
    /// `lpis_format` is there.
    pub format: bool,
    /// `lpis_release` is there.
    pub years: bool,
    /// `lpis_span` is there.
    pub spans: bool,
    /// `lpis_row` is there.
    pub lines: bool,
    /// `lpis_live` is there.
    pub lives: bool,
    /// `lpis_text` is there.
    pub texts: bool,
    /// `lpis_mark` is there.
    pub marks: bool,
    /// Something has the name of one of them that no statement can read as a table.
    pub hidden: bool,
}

impl Found {
    /// Whether one at least is there.
    pub fn is_any(&self) -> bool
        ensures { result ≡ is_any self.now }
    {
        self.format | self.years | self.spans | self.lines | self.lives | self.texts | self.marks
    }

    /// Whether each table of version 3 is there.
    pub fn is_whole(&self) -> bool
        ensures { result ≡ is_whole self.now }
    {
        self.format & self.years & self.spans & self.lines & self.texts & self.marks
    }

    /// What is there once the tables of version 3 that lack are made.
    pub fn completed(&self) -> Found
        ensures { result ≡ completed self.now }
    {
        Found {
            format: true,
            years: true,
            spans: true,
            lines: true,
            texts: true,
            marks: true,
            ..*self
        }
    }
}

/// Whether a table has this name.
fn has_table(schema: &Schema, name: &str) -> bool
    ensures { result ≡ has_table schema.now name.now }
{
    let name = name.as_bytes();
    schema
        .tables
        .as_slice()
        .iter()
        .any(|table| table.is_named(name))
}

/// Whether it is the name of a table of the register.
fn is_table_name(name: &[u8]) -> bool
    ensures { result ≡ is_table_name name.now }
{
    let format = same_name(name, b"lpis_format");
    let release = same_name(name, b"lpis_release");
    let span = same_name(name, b"lpis_span");
    let live = same_name(name, b"lpis_live");
    let row = same_name(name, b"lpis_row");
    let text = same_name(name, b"lpis_text");
    let mark = same_name(name, b"lpis_mark");
    format | release | span | live | row | text | mark
}

/// Whether a table of the register is hidden behind something else of its name.
fn hides_table(schema: &Schema) -> bool
    ensures { result ≡ hides_table schema.now }
{
    schema
        .views
        .as_slice()
        .iter()
        .any(|view| is_table_name(view.name.as_slice()))
}

/// The tables that are there.
pub fn tables_in(schema: &Schema) -> Found
    ensures hidden { result.hidden ≡ hides_table schema.now }
    ensures there { AreThere schema.now result }
{
    let format = has_table(schema, "lpis_format");
    let years = has_table(schema, "lpis_release");
    let spans = has_table(schema, "lpis_span");
    let lines = has_table(schema, "lpis_row");
    let lives = has_table(schema, "lpis_live");
    let texts = has_table(schema, "lpis_text");
    let marks = has_table(schema, "lpis_mark");
    let hidden = hides_table(schema);
    Found {
        format,
        years,
        spans,
        lines,
        lives,
        texts,
        marks,
        hidden,
    }
}
