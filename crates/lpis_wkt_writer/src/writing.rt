//! The text of a polygon.

ghost use Rattle.std.specs.Prelude.{◌≡◌, ◌<◌, ◌≤◌, ◌+◌, ◌++◌, IfOk, OnOk, length, drop};
ghost use Rattle.std.specs.Prelude.{string_bytes, codes};
ghost use Rattle.std.specs.List.{All, flat_map};
ghost use Rattle.lpis_rings.specs.Ring.{IsRing};
ghost use Rattle.lpis_wkt.specs.Text.{PolygonText};
ghost use Rattle.lpis_wkt_writer.specs.Text.{number_text, polygon_point_text, ring_text};
ghost use Rattle.lpis_wkt_writer.specs.Text.{member_text, polygon_text, with_commas, after_commas};
ghost use Rattle.lpis_wkt_writer.specs.Text.{HasRings, HaveRings};

use lpis_digits::{put_byte, put_decimal, put_last_digits};
use lpis_points::Point;
use lpis_rings::{Member, Polygon, Ring};
use std::alloc::{AllocError, Global};

/// How many units of a coordinate one unit of its text has: a coordinate is in millimetres, the
/// text in metres.
const METRE: u64 = 1000;

/// How many bytes a number has at most: a minus, 20 digits, the point and three decimals.
const MOST_NUMBER: usize = 25;

/// How many bytes a point has at most: two numbers and the space between them.
const MOST_POINT: usize = 2 * MOST_NUMBER + 1;

/// Puts a coordinate, with its three decimals, in front of the text that begins at `end`, and
/// returns where it begins now.
fn put_number(value: i64, text: &mut [u8], end: usize) -> usize
    requires { (25 ≤ end) × (end ≤ length text.old) }
    ensures room { end ≤ result + 25 }
    ensures within { result ≤ end }
    ensures written { drop result text.new ≡ number_text value ++ drop end text.old }
{
    let size = value.unsigned_abs();
    let mut start = put_last_digits(size, 3, text, end);
    start = put_byte(b'.', text, start);
    start = put_decimal(size / METRE, text, start);
    if value >= 0 {
        return start;
    }
    put_byte(b'-', text, start)
}

/// Makes the text of a point, and returns where it begins.
fn put_point(point: Point, text: &mut [u8; MOST_POINT]) -> usize
    ensures within { result ≤ 51 }
    ensures written { drop result text.new ≡ polygon_point_text point }
{
    let mut start = put_number(point.y, text, MOST_POINT);
    start = put_byte(b' ', text, start);
    put_number(point.x, text, start)
}

fn write_point(point: Point, out: &mut String) -> Result<(), AllocError>
    ensures { OnOk result (string_bytes out.new ≡ string_bytes out.old
        ++ polygon_point_text point) }
{
    let mut text = [0; MOST_POINT];
    let start = put_point(point, &mut text);
    match str::from_utf8(&text[start..]) {
        Ok(text) => out.push_str(text),
        // Its bytes are ASCII.
        Err(_) => unreachable!(),
    }
}

/// Points that follow another.
fn write_more_points(points: &[Point], out: &mut String) -> Result<(), AllocError>
    ensures { OnOk result (string_bytes out.new ≡ string_bytes out.old
        ++ after_commas polygon_point_text points.now) }
{
    for point in points {
        out.push_str(",")?;
        write_point(*point, out)?;
    }
    Ok(())
}

fn write_points(points: &[Point], out: &mut String) -> Result<(), AllocError>
    ensures { OnOk result (string_bytes out.new ≡ string_bytes out.old
        ++ with_commas polygon_point_text points.now) }
{
    match points {
        [] => Ok(()),
        [first, more @ ..] => {
            write_point(*first, out)?;
            write_more_points(more, out)
        }
    }
}

fn write_ring(ring: &Ring, out: &mut String) -> Result<(), AllocError>
    ensures text { OnOk result (string_bytes out.new ≡ string_bytes out.old
        ++ ring_text ring.now) }
    ensures ring { OnOk result (IsRing ring.now) }
{
    out.push_str("(")?;
    write_points(ring.points(), out)?;
    out.push_str(")")
}

/// Rings that follow a shell.
fn write_holes(holes: &[Ring], out: &mut String) -> Result<(), AllocError>
    ensures text { OnOk result (string_bytes out.new ≡ string_bytes out.old
        ++ after_commas ring_text holes.now) }
    ensures rings { OnOk result (All IsRing holes.now) }
{
    for hole in holes {
        out.push_str(",")?;
        write_ring(hole, out)?;
    }
    Ok(())
}

fn write_member(member: &Member, out: &mut String) -> Result<(), AllocError>
    ensures text { OnOk result (string_bytes out.new ≡ string_bytes out.old
        ++ member_text member.now) }
    ensures rings { OnOk result (HasRings member.now) }
{
    out.push_str("(")?;
    write_ring(&member.shell, out)?;
    write_holes(member.holes.as_slice(), out)?;
    out.push_str(")")
}

/// Members that follow another.
fn write_more_members(members: &[Member], out: &mut String) -> Result<(), AllocError>
    ensures text { OnOk result (string_bytes out.new ≡ string_bytes out.old
        ++ after_commas member_text members.now) }
    ensures rings { OnOk result (HaveRings members.now) }
{
    for member in members {
        out.push_str(",")?;
        write_member(member, out)?;
    }
    Ok(())
}

/// Members, the first of which is given apart.
fn write_members(first: &Member, more: &[Member], out: &mut String) -> Result<(), AllocError>
    ensures text { OnOk result (string_bytes out.new ≡ string_bytes out.old
        ++ codes "(" ++ member_text first.now ++ after_commas member_text more.now ++ codes ")") }
    ensures rings { OnOk result (HasRings first.now × HaveRings more.now) }
{
    out.push_str("(")?;
    write_member(first, out)?;
    write_more_members(more, out)?;
    out.push_str(")")
}

/// The text of members, of which there is one or more.
#[tactic(auto, unfolding(crate::specs::Text::polygon_text))]
fn write_text(members: &[Member], out: &mut String) -> Result<(), AllocError>
    requires { 0 < length members.now }
    ensures text { OnOk result (string_bytes out.new ≡ string_bytes out.old
        ++ polygon_text members.now) }
    ensures rings { OnOk result (HaveRings members.now) }
{
    match members {
        [] => unreachable!(),
        [only] => {
            out.push_str("POLYGON")?;
            write_member(only, out)
        }
        [first, more @ ..] => {
            out.push_str("MULTIPOLYGON")?;
            write_members(first, more, out)
        }
    }
}

/// The well-known text of a polygon: `POLYGON` for one member, else `MULTIPOLYGON`, in metres with
/// three decimals, and with no space but that of a point. `lpis_wkt::read` reads it back.
pub fn write(alloc: Global, polygon: &Polygon) -> Result<String, AllocError>
    // The text is that of the definition.
    ensures text { IfOk result (λ s. string_bytes s ≡ polygon_text polygon.now) }
    // The grammar reads it as this polygon.
    ensures spells { IfOk result (λ s. PolygonText (string_bytes s) polygon.now) }
{
    let mut out = String::new(alloc);
    write_text(polygon.members(), &mut out)?;
    Ok(out)
}
