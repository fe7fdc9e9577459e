//! A polygon from its text.

ghost use Rattle.std.specs.Prelude.{◌≡◌, List, IfOk, IfErr, MatchResult};
ghost use Rattle.lpis_rings.specs.declared.polygon.Member.{Member};
ghost use Rattle.lpis_wkt.specs.declared.fault.WktFault.TheVariants.{Memory};
ghost use Rattle.lpis_wkt.specs.Tokens.{tokens};
ghost use Rattle.lpis_wkt.specs.private.Machine.{AtKeyword, parse_outcome};
ghost use Rattle.lpis_wkt.specs.private.Parsing.{IsOutcome};
ghost use Rattle.lpis_wkt.specs.Text.{PolygonText, IsTextFault};
ghost use Rattle.lpis_wkt.specs.Answer.{Gives, polygon_of};

use crate::fault::WktFault;
use crate::parser::Parser;
use crate::tokens::Tokens;
use lpis_rings::Polygon;
use std::alloc::Global;

/// The polygon of all tokens.
fn parse(alloc: Global, text: &[u8]) -> Result<Polygon, WktFault>
    ensures { IsOutcome result (parse_outcome AtKeyword (tokens text.now)) }
{
    let mut tokens = Tokens::new(text);
    let mut parser = Parser::new(alloc);
    while let Some(token) = tokens.next() {
        parser.take(alloc, token)?;
        parser.take_points(&mut tokens)?;
    }
    parser.finish(text.len())
}

/// The polygon that a text spells: `POLYGON` or `MULTIPOLYGON`, in metres with up to three decimals.
/// Else the first fault of the text: the code and the offset in bytes of the first token that
/// cannot stand where it stands.
pub fn read(alloc: Global, text: &str) -> Result<Polygon, WktFault>
    // What is read is spelled by the text.
    ensures polygon { IfOk result (λ polygon. PolygonText text.now polygon) }
    // What a text spells is read, unless memory runs out.
    ensures only { (members : List Member) → PolygonText text.now members
        → MatchResult result (λ polygon. polygon ≡ members) (λ fault. fault ≡ Memory) }
    // A fault is the first of the text.
    ensures fault { IfErr result (λ fault. IsTextFault text.now fault) }
    // The same as a function of the text.
    ensures gives { Gives result (polygon_of text.now) }
{
    parse(alloc, text.as_bytes())
}
