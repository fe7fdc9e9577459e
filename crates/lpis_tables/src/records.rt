//! The records of a text of CSV, one after the other.

ghost use Rattle.std.specs.Prelude.{◌≡◌, ◌∷◌, [], length, IfOk, MatchOption};
ghost use Rattle.csv.specs.Reading.{default_config, expected_len, records, strip_bom};
ghost use Rattle.csv.specs.Records.{fields_of};
ghost use Rattle.std.specs.Prelude.{None};
ghost use Rattle.lpis_tables.specs.private.Left.{IsBetween, Left, ReadMoves, Steps, records_left};

use csv::{ByteRecord, ErrorKind, Reader, ReaderBuilder};
use std::alloc::{AllocError, Global};
use std::marker::Model;

/// What stands next in a text.
#[derive(Clone, Copy, Debug, PartialEq, Eq)]
pub(crate) enum Step {
    /// Nothing more.
    End,
    /// A record as long as the first.
    Record,
    /// A record of another length.
    Uneven,
}

/// The records of a text after its first, which contracts see as their list with the first one's
/// length. It has none left once memory ran out or a record had another length.
#[derive(Drop)]
pub(crate) struct Records<'a> {
    reader: Reader<&'a [u8]>,
    width: usize,
    ended: bool,
}

impl<'a> Model for Records<'a> {
    ghost use Rattle.lpis_tables.specs.private.Left.{LeftByRecords, Left, left_of};

    ghost Value = { Left };

    ghost view = { λ r. left_of r.width r.ended r.reader };

    ghost invariant = { λ r. LeftByRecords r.width r.ended r.reader };
}

/// A reader of the records of a text.
fn reader_of(alloc: Global, text: &[u8]) -> Reader<&[u8]>
    ensures between { IsBetween result }
    ensures fresh { expected_len result ≡ None }
    ensures left { records_left result ≡ records default_config (strip_bom text.now) }
{
    ReaderBuilder::new()
        .has_headers(false)
        .from_reader(alloc, text)
}

/// Reads the next record.
fn next_step(reader: &mut Reader<&[u8]>, row: &mut ByteRecord) -> Result<Step, AllocError>
    requires { IsBetween reader.old }
    ensures { IfOk result (λ step. Steps reader.old reader.new step (fields_of row.new)) }
{
    match reader.read_byte_record(row) {
        Ok(true) => Ok(Step::Record),
        Ok(false) => Ok(Step::End),
        Err(error) => match error.kind() {
            ErrorKind::UnequalLengths { .. } => Ok(Step::Uneven),
            // A read of bytes in memory fails for memory alone.
            _ => Err(AllocError),
        },
    }
}

impl<'a> Records<'a> {
    /// The records of a text: the first goes to `header`. `None` where the text has no record. One
    /// byte order mark at the start is skipped.
    pub(crate) fn open(
        alloc: Global,
        text: &'a [u8],
        header: &mut ByteRecord,
    ) -> Result<Option<Records<'a>>, AllocError>
        ensures none { IfOk result
            (λ o. MatchOption o (records default_config (strip_bom text.now) ≡ [])
            (λ r. records default_config (strip_bom text.now) ≡ fields_of header.new ∷ r.records)) }
        ensures width { IfOk result
            (λ o. MatchOption o (Unit {0}) (λ r. r.width ≡ length (fields_of header.new))) }
    {
        let mut reader = reader_of(alloc, text);
        match next_step(&mut reader, header)? {
            Step::Record => Ok(Some(Records {
                reader,
                width: header.len(),
                ended: false,
            })),
            Step::End => Ok(None),
            Step::Uneven => unreachable!(),
        }
    }

    /// Reads the next record.
    pub(crate) fn next(&mut self, row: &mut ByteRecord) -> Result<Step, AllocError>
        ensures { IfOk result (λ step. ReadMoves self.old self.new step (fields_of row.new)) }
    {
        if self.ended {
            return Ok(Step::End);
        }
        let step = next_step(&mut self.reader, row);
        self.ended = !matches!(step, Ok(Step::Record));
        step
    }
}
