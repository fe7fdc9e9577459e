//! Printed areas.

ghost use Rattle.std.specs.Prelude.{◌≡◌, ◌≢◌, ◌≤◌, ◌<◌, ◌+◌, ◌^◌, ◌++◌, OnOk, drop, length};
ghost use Rattle.std.specs.Prelude.{nat_abs};
ghost use Rattle.std.specs.Fmt.{decimal};
ghost use Rattle.std.specs.Io.KnownBytes.{Appends};
ghost use Rattle.std.specs.IoError.{error_kind};
ghost use Rattle.std.specs.declared.io.ErrorKind.TheVariants.{OutOfMemory};
ghost use Rattle.lpis_run.specs.Area.{area_line, area_text, eligible_text, fives_text};
ghost use Rattle.lpis_run.specs.Area.{most_printed};
ghost use Rattle.lpis_run.specs.declared.printing.PrintFault.TheVariants.{Memory, Write};

use lpis_digits::{put_byte, put_decimal, put_last_digits};
use std::io::{self, ErrorKind, Write};
use thiserror::Error;

/// Why a text was not written.
#[derive(Clone, Copy, Debug, PartialEq, Eq, Error)]
pub enum PrintFault {
    /// Memory ran out.
    #[error("out of memory")]
    Memory,
    /// The writer refused.
    #[error("the writer refused")]
    Write,
}

impl From<io::Error> for PrintFault {
    ghost from_gives = { λ error fault.
        (error_kind error ≡ OutOfMemory → fault ≡ Memory)
        × (error_kind error ≢ OutOfMemory → fault ≡ Write) };

    fn from(error: io::Error) -> PrintFault {
        if error.kind() == ErrorKind::OutOfMemory {
            PrintFault::Memory
        } else {
            PrintFault::Write
        }
    }
}

/// How many units of its last decimal are printed for one unit of a number: that decimal is a fifth
/// of a doubled square millimetre, or of a hundredth of one.
const UNITS: u128 = 5;

/// How many units of a printed area's last decimal one square metre has.
const SQUARE_METRE: u128 = 10_000_000;

/// How many units of a printed eligible area's last decimal one square metre has.
const ELIGIBLE_SQUARE_METRE: u128 = 1_000_000_000;

/// How many bytes an area has at most, with room to spare: it is made from its end.
const MOST_TEXT: usize = 80;

/// Puts a number in front of the text that begins at `end`, and returns where it begins now.
fn put_whole(value: u128, text: &mut [u8], end: usize) -> usize
    requires { (60 ≤ end) × (end ≤ length text.old) }
    ensures room { end ≤ result + 39 }
    ensures within { result ≤ end }
    ensures written { drop result text.new ≡ decimal value ++ drop end text.old }
{
    let mut left = value;
    let mut at = end;
    while left > u64::MAX as u128 {
        at -= 1;
        text[at] = b'0' + (left % 10) as u8;
        left /= 10;
    }
    put_decimal(left as u64, text, at)
}

/// Makes the text of five times `d`, divided by `one`, with `width` decimals, and returns where it
/// begins.
fn put_fives(d: i128, width: usize, one: u128, text: &mut [u8; MOST_TEXT]) -> usize
    requires printed { nat_abs d ≤ most_printed }
    requires power { one ≡ 10 ^ width }
    requires few { (width ≤ 9) × (0 < one) × (one ≤ 1000000000) }
    ensures within { result ≤ 80 }
    ensures written { drop result text.new ≡ fives_text width d }
{
    let units = UNITS * d.unsigned_abs();
    let rest = (units % one) as u64;
    let mut start = put_last_digits(rest, width, text, MOST_TEXT);
    start = put_byte(b'.', text, start);
    start = put_whole(units / one, text, start);
    if d >= 0 {
        return start;
    }
    put_byte(b'-', text, start)
}

/// Writes an area of `d` doubled square millimetres in square metres, with every decimal.
#[tactic(auto, unfolding(crate::specs::Area::area_text))]
pub fn print_area<W: Write>(d: i128, out: &mut W) -> Result<(), PrintFault>
    requires { nat_abs d ≤ most_printed }
    ensures { OnOk result (Appends (W.contents out.old) (W.contents out.new) (area_text d)) }
{
    let mut text = [0; MOST_TEXT];
    let start = put_fives(d, 7, SQUARE_METRE, &mut text);
    out.write_all(&text[start..])?;
    Ok(())
}

/// Writes an eligible area of `s` doubled square millimetres at one percent each in square metres,
/// with every decimal.
#[tactic(auto, unfolding(crate::specs::Area::eligible_text))]
pub fn print_eligible<W: Write>(s: i128, out: &mut W) -> Result<(), PrintFault>
    requires { nat_abs s ≤ most_printed }
    ensures { OnOk result (Appends (W.contents out.old) (W.contents out.new) (eligible_text s)) }
{
    let mut text = [0; MOST_TEXT];
    let from = put_fives(s, 9, ELIGIBLE_SQUARE_METRE, &mut text);
    out.write_all(&text[from..])?;
    Ok(())
}

/// Writes an area on a line of its own.
pub fn print_line<W: Write>(d: i128, out: &mut W) -> Result<(), PrintFault>
    requires { nat_abs d ≤ most_printed }
    ensures { OnOk result (Appends (W.contents out.old) (W.contents out.new) (area_line d)) }
{
    print_area(d, out)?;
    out.write_all(b"\n")?;
    Ok(())
}
