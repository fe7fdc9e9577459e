//! Rows as a database gives them.

ghost use Rattle.std.specs.Prelude.{◌≡◌, ◌↔◌, IsTrue, [], pos};

use std::alloc::Global;
use std::marker::Model;
use std::mem::replace;

/// A row of `lpis_format`.
#[derive(Drop)]
pub struct FormatRow {
    /// A key, which is to be 1.
    pub one: i64,
    /// The version of the tables.
    pub version: i64,
}

impl Model for FormatRow {
    ghost use Rattle.lpis_register_rows.specs.Content.{Format};

    ghost Value = { Format };

    ghost view = { λ a. record { one = a.one; version = a.version } };
}

impl FormatRow {
    /// Whether it has the key 1 and this version.
    pub(crate) fn is_of(&self, version: i64) -> bool
        ensures { IsTrue result ↔ (self.now ≡ record { one = pos 1; version = version }) }
    {
        self.one == 1 && self.version == version
    }
}

/// A row of `lpis_span`.
#[derive(Drop)]
pub struct SpanRow {
    /// The identifier's text.
    pub id: String,
    /// The year of the first release that holds it.
    pub since: i64,
    /// The year of the last release that held it, 0 while it is live.
    pub until: i64,
}

impl Model for SpanRow {
    ghost use Rattle.std.specs.Prelude.{string_bytes};
    ghost use Rattle.lpis_register_rows.specs.Content.{StoredSpan};

    ghost Value = { StoredSpan };

    ghost view = { λ a. record { id = string_bytes a.id; since = a.since; until = a.until } };
}

/// A row of `lpis_row`.
#[derive(Drop)]
pub struct LineRow {
    /// The year of its release.
    pub year: i64,
    /// Its position among the rows of the release, from 0.
    pub position: i64,
    /// The old identifier's text.
    pub old: String,
    /// The successor's text, empty for an ending.
    pub new: String,
}

impl Model for LineRow {
    ghost use Rattle.std.specs.Prelude.{string_bytes};
    ghost use Rattle.lpis_register_rows.specs.Content.{Line};

    ghost Value = { Line };

    ghost view = { λ a. record {
      year = a.year;
      position = a.position;
      old = string_bytes a.old;
      new = string_bytes a.new;
    } };
}

/// A row of `lpis_live`: the release of a year holds an identifier.
#[derive(Drop)]
pub struct LiveRow {
    /// The year of the release.
    pub year: i64,
    /// The identifier's text.
    pub id: String,
}

impl Model for LiveRow {
    ghost use Rattle.std.specs.Prelude.{string_bytes};
    ghost use Rattle.lpis_register_rows.specs.Content.{Live};

    ghost Value = { Live };

    ghost view = { λ a. record { year = a.year; id = string_bytes a.id } };
}

/// A row of `lpis_text`.
#[derive(Drop)]
pub struct TextRow {
    /// The text of a parcel's identifier.
    pub id: String,
    /// The text of its shape.
    pub wkt: String,
}

impl Model for TextRow {
    ghost use Rattle.std.specs.Prelude.{string_bytes};
    ghost use Rattle.lpis_register_rows.specs.Content.{StoredText};

    ghost Value = { StoredText };

    ghost view = { λ a. record { id = string_bytes a.id; wkt = string_bytes a.wkt } };
}

/// A row of `lpis_mark`: a row of lineage is marked exact.
#[derive(Drop)]
pub struct MarkRow {
    /// The year of the release.
    pub year: i64,
    /// The position of the row among the rows of the release, from 0.
    pub position: i64,
}

impl Model for MarkRow {
    ghost use Rattle.lpis_register_rows.specs.Content.{Mark};

    ghost Value = { Mark };

    ghost view = { λ a. record { year = a.year; position = a.position } };
}

/// The rows of the register's tables but for the texts, each list in any order.
#[derive(Drop)]
pub struct Rows {
    formats: Vec<FormatRow>,
    years: Vec<i64>,
    spans: Vec<SpanRow>,
    lines: Vec<LineRow>,
    live: Vec<LiveRow>,
    marks: Vec<MarkRow>,
}

impl Model for Rows {
    ghost use Rattle.std.specs.Prelude.{[]};
    ghost use Rattle.lpis_register_rows.specs.Content.{Content};

    ghost Value = { Content };

    ghost view = { λ a. record {
      formats = a.formats.items;
      years = a.years.items;
      spans = a.spans.items;
      lines = a.lines.items;
      live = a.live.items;
      texts = [];
      marks = a.marks.items;
    } };
}

impl Rows {
    /// The rows of the six tables.
    pub fn new(
        formats: Vec<FormatRow>,
        years: Vec<i64>,
        spans: Vec<SpanRow>,
        lines: Vec<LineRow>,
        live: Vec<LiveRow>,
        marks: Vec<MarkRow>,
    ) -> Rows
        ensures { result ≡ record {
          formats = formats.items;
          years = years.items;
          spans = spans.items;
          lines = lines.items;
          live = live.items;
          texts = [];
          marks = marks.items;
        } }
    {
        Rows {
            formats,
            years,
            spans,
            lines,
            live,
            marks,
        }
    }

    /// The rows of `lpis_format`.
    pub(crate) fn formats(&self) -> &[FormatRow]
        ensures { result.now ≡ self.now.formats }
    {
        self.formats.as_slice()
    }

    /// The rows of `lpis_release`.
    pub(crate) fn years(&self) -> &[i64]
        ensures { result.now ≡ self.now.years }
    {
        self.years.as_slice()
    }

    /// The rows of `lpis_span`, taken out.
    pub(crate) fn take_spans(&mut self, alloc: Global) -> Vec<SpanRow>
        ensures taken { result.items ≡ self.old.spans }
        ensures left { self.new ≡ record self.old { spans = [] } }
    {
        replace(&mut self.spans, Vec::new(alloc))
    }

    /// The rows of `lpis_row`.
    pub(crate) fn lines(&self) -> &[LineRow]
        ensures { result.now ≡ self.now.lines }
    {
        self.lines.as_slice()
    }

    /// The rows of `lpis_live`.
    pub(crate) fn live(&self) -> &[LiveRow]
        ensures { result.now ≡ self.now.live }
    {
        self.live.as_slice()
    }

    /// The rows of `lpis_mark`.
    pub(crate) fn marks(&self) -> &[MarkRow]
        ensures { result.now ≡ self.now.marks }
    {
        self.marks.as_slice()
    }
}
