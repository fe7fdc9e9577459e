//! The polygon that tokens spell, token by token.

ghost use Rattle.std.specs.Prelude.{◌≡◌, ◌<◌, ◌≤◌, ℕ, true, List, [], length, Ok, IfOk, IfErr};
ghost use Rattle.std.specs.Prelude.{OnErr, OnOk};
ghost use Rattle.lpis_points.specs.declared.point.Point.{Point};
ghost use Rattle.lpis_wkt.specs.Tokens.{End};
ghost use Rattle.lpis_wkt.specs.declared.fault.WktFault.TheVariants.{Memory};
ghost use Rattle.lpis_wkt.specs.Table.{open_code, first_open_code};
ghost use Rattle.lpis_wkt.specs.private.Machine.{Context, AtKeyword, AfterPoint, AfterRing};
ghost use Rattle.lpis_wkt.specs.private.Machine.{limited_step, close_ring, close_body, member_of};
ghost use Rattle.lpis_wkt.specs.private.Coordinates.{point_of};
ghost use Rattle.lpis_wkt.specs.private.Views.{token_of};
ghost use Rattle.lpis_wkt.specs.private.Parsing.{Took, ParseEnds, IsOpening, IsAtCoordinate};
ghost use Rattle.lpis_wkt.specs.private.Parsing.{IsClosing};
ghost use Rattle.lpis_wkt.specs.private.Parsing.{IsAfterRing, SameOutcome};

use crate::coordinate::Coordinate;
use crate::fault::{WktCode, WktFault};
use crate::number::coordinate_of;
use crate::tokens::{Ahead, Placed, Token, Tokens};
use crate::words::{is_dimension, is_empty, is_multi, is_polygon, keyword_code};
use lpis_memory::{Sequence, without_spare};
use lpis_points::Point;
use lpis_rings::{MOST_POINTS, Member, Polygon, Ring, RingFault};
use std::alloc::{AllocError, Global};
use std::marker::Model;

/// How many points there is room for when a ring begins: most rings have no more.
const USUAL_POINTS: usize = 16;

/// What is expected next.
#[derive(Clone, Copy)]
pub enum Expecting {
    /// The keyword.
    Keyword,
    /// The `(` directly after the keyword.
    FirstBody,
    /// The `(` of a member of a multipolygon.
    Body,
    /// The `(` of a ring.
    Ring,
    /// A point.
    X,
    /// The y of a point with this x.
    Y(Coordinate),
    /// `,` or `)` after a point.
    PointEnd,
    /// `,` or `)` after a ring.
    RingEnd,
    /// `,` or `)` after a member.
    BodyEnd,
    /// The end of the text.
    End,
}

/// What was read, and what is expected next.
#[derive(Drop)]
pub struct Parser {
    expecting: Expecting,
    multi: bool,
    members: Vec<Member>,
    rings: Vec<Ring>,
    points: Vec<Point>,
    count: usize,
}

impl Model for Parser {
    ghost use Rattle.lpis_wkt.specs.private.Machine.{ParserState, Context};
    ghost use Rattle.lpis_wkt.specs.private.Parsing.{state_of, Kept};

    ghost Value = { ParserState };

    ghost view = { λ p. state_of p.expecting
        (record { multi = p.multi; members = p.members.items; rings = p.rings.items })
        p.points.items };

    ghost invariant = { λ p. Kept p.expecting
        (record { multi = p.multi; members = p.members.items; rings = p.rings.items })
        p.points.items p.count };
}

/// The fault of a token that stands for a `(` and is none.
fn open_code(token: Token<'_>) -> WktCode
    ensures { result ≡ open_code (token_of token.entry) }
{
    match token {
        Token::Word(word) if is_empty(word) => WktCode::Empty,
        _ => WktCode::Syntax,
    }
}

/// The fault of a token that stands for the first `(` and is none.
fn first_open_code(token: Token<'_>) -> WktCode
    ensures { result ≡ first_open_code (token_of token.entry) }
{
    match token {
        Token::Word(word) if is_dimension(word) => WktCode::Dimension,
        token => open_code(token),
    }
}

/// The point of two coordinates.
fn point_of(x: Coordinate, y: Coordinate) -> Point
    ensures { result ≡ point_of x y }
{
    Point {
        x: x.value,
        y: y.value,
    }
}

/// The member of these rings. They leave their list, which keeps its room for those of the next.
fn take_member(rings: &mut Vec<Ring>) -> Result<Member, AllocError>
    requires { 0 < length rings.old.items }
    ensures is { IfOk result (λ member. member ≡ member_of rings.old.items) }
    ensures ok { OnOk result (rings.new.items ≡ []) }
    ensures err { OnErr result (rings.new ≡ rings.old) }
{
    let holes = Sequence::new(rings.split_off(1)?);
    let shell = rings.remove(0);
    Ok(Member { shell, holes })
}

impl Parser {
    /// A parser that has taken no token.
    pub fn new(alloc: Global) -> Parser
        ensures { result ≡ AtKeyword }
    {
        Parser {
            expecting: Expecting::Keyword,
            multi: false,
            members: Vec::new(alloc),
            rings: Vec::new(alloc),
            points: Vec::new(alloc),
            count: 0,
        }
    }

    /// Takes the next token.
    pub fn take(&mut self, alloc: Global, next: Placed<'_>) -> Result<(), WktFault>
        ensures { Took result self.new (limited_step self.old (token_of next.entry.token))
            next.entry.offset }
    {
        match self.expecting {
            Expecting::Keyword | Expecting::FirstBody | Expecting::Body | Expecting::Ring =>
                self.take_opening(next),
            Expecting::X | Expecting::Y(_) => self.take_coordinate(next),
            Expecting::PointEnd | Expecting::RingEnd | Expecting::BodyEnd | Expecting::End => {
                self.take_closing(alloc, next)
            }
        }
    }

    /// Takes the next token where the keyword or a `(` is expected.
    fn take_opening(&mut self, next: Placed<'_>) -> Result<(), WktFault>
        requires { IsOpening self.old }
        ensures { Took result self.new (limited_step self.old (token_of next.entry.token))
            next.entry.offset }
    {
        let offset = next.offset;
        let code = match self.expecting {
            Expecting::Keyword => match next.token {
                Token::Word(word) if is_polygon(word) => {
                    self.expecting = Expecting::FirstBody;
                    self.multi = false;
                    return Ok(());
                }
                Token::Word(word) if is_multi(word) => {
                    self.expecting = Expecting::FirstBody;
                    self.multi = true;
                    return Ok(());
                }
                Token::Word(word) => keyword_code(word),
                _ => WktCode::Keyword,
            },
            Expecting::FirstBody => match next.token {
                Token::Open => {
                    self.expecting = if self.multi {
                        Expecting::Body
                    } else {
                        Expecting::Ring
                    };
                    return Ok(());
                }
                token => first_open_code(token),
            },
            Expecting::Body => match next.token {
                Token::Open => {
                    self.expecting = Expecting::Ring;
                    return Ok(());
                }
                token => open_code(token),
            },
            Expecting::Ring => match next.token {
                Token::Open => {
                    self.points.reserve(USUAL_POINTS)?;
                    self.expecting = Expecting::X;
                    return Ok(());
                }
                token => open_code(token),
            },
            _ => unreachable!(),
        };
        Err(WktFault::At { code, offset })
    }

    /// Takes the next token where an x or a y is expected.
    fn take_coordinate(&mut self, next: Placed<'_>) -> Result<(), WktFault>
        requires { IsAtCoordinate self.old }
        ensures { Took result self.new (limited_step self.old (token_of next.entry.token))
            next.entry.offset }
    {
        let offset = next.offset;
        let code = match self.expecting {
            Expecting::X => match next.token {
                Token::Word(_) if self.count >= MOST_POINTS => WktCode::TooManyPoints,
                Token::Word(word) => match coordinate_of(word) {
                    Ok(x) => {
                        self.expecting = Expecting::Y(x);
                        return Ok(());
                    }
                    Err(code) => code,
                },
                _ => WktCode::Syntax,
            },
            Expecting::Y(x) => match next.token {
                Token::Word(word) => match coordinate_of(word) {
                    Ok(y) => {
                        self.points.push(point_of(x, y))?;
                        self.count += 1;
                        self.expecting = Expecting::PointEnd;
                        return Ok(());
                    }
                    Err(code) => code,
                },
                _ => WktCode::Syntax,
            },
            _ => unreachable!(),
        };
        Err(WktFault::At { code, offset })
    }

    /// Takes the next token where a `,`, a `)` or the end is expected.
    fn take_closing(&mut self, alloc: Global, next: Placed<'_>) -> Result<(), WktFault>
        requires { IsClosing self.old }
        ensures { Took result self.new (limited_step self.old (token_of next.entry.token))
            next.entry.offset }
    {
        let offset = next.offset;
        let code = match self.expecting {
            Expecting::PointEnd => match next.token {
                Token::Comma => {
                    self.expecting = Expecting::X;
                    return Ok(());
                }
                Token::Close => return self.end_ring(alloc, offset),
                Token::Word(_) => WktCode::Dimension,
                Token::Open => WktCode::Syntax,
            },
            Expecting::RingEnd => match next.token {
                Token::Comma => {
                    self.expecting = Expecting::Ring;
                    return Ok(());
                }
                Token::Close => return self.end_body(),
                _ => WktCode::Syntax,
            },
            Expecting::BodyEnd => match next.token {
                Token::Comma => {
                    self.expecting = Expecting::Body;
                    return Ok(());
                }
                Token::Close => {
                    self.expecting = Expecting::End;
                    return Ok(());
                }
                _ => WktCode::Syntax,
            },
            Expecting::End => WktCode::Syntax,
            _ => unreachable!(),
        };
        Err(WktFault::At { code, offset })
    }

    /// Takes a point and a `,` after it, if they come and are written as most are, and says
    /// whether another may come.
    fn take_point(&mut self, tokens: &mut Tokens<'_>) -> Result<bool, WktFault>
        ensures same { IfOk result (λ _. SameOutcome self.new tokens.new self.old tokens.old) }
        ensures fewer { IfOk result (λ _. length tokens.new ≤ length tokens.old) }
        ensures taken { IfOk result (λ more. more ≡ true → length tokens.new < length tokens.old) }
        ensures memory { IfErr result (λ fault. fault ≡ Memory) }
    {
        if !matches!(self.expecting, Expecting::X) || self.count >= MOST_POINTS {
            return Ok(false);
        }
        match tokens.next_coordinates() {
            Ahead::Nothing => Ok(false),
            Ahead::X(x) => {
                self.expecting = Expecting::Y(x);
                Ok(false)
            }
            Ahead::Point(x, y) => {
                self.points.push(point_of(x, y))?;
                self.count += 1;
                let more = tokens.next_comma();
                self.expecting = if more {
                    Expecting::X
                } else {
                    Expecting::PointEnd
                };
                Ok(more)
            }
        }
    }

    /// Takes points as long as they are written as most are.
    pub fn take_points(&mut self, tokens: &mut Tokens<'_>) -> Result<(), WktFault>
        ensures same { IfOk result (λ _. SameOutcome self.new tokens.new self.old tokens.old) }
        ensures fewer { IfOk result (λ _. length tokens.new ≤ length tokens.old) }
        ensures memory { IfErr result (λ fault. fault ≡ Memory) }
    {
        while self.take_point(tokens)? {}
        Ok(())
    }

    /// Takes the `)` of a ring.
    fn end_ring(&mut self, alloc: Global, offset: usize) -> Result<(), WktFault>
        ensures { (b : Context) (ps : List Point) → self.old ≡ AfterPoint b ps
            → Took result self.new (close_ring b ps) offset }
    {
        // A list that is cut to its length where it lies leaves a gap that few lists fit.
        let points = Vec::from_slice(alloc, self.points.as_slice())?;
        match Ring::new(points) {
            Ok(ring) => {
                self.rings.push(ring)?;
                self.points.clear();
                self.expecting = Expecting::RingEnd;
                Ok(())
            }
            Err(bad) => {
                let code = match bad.why {
                    RingFault::Short => WktCode::TooFewPoints,
                    RingFault::Unclosed => WktCode::NotClosed,
                };
                Err(WktFault::At { code, offset })
            }
        }
    }

    /// Takes the `)` of a body.
    fn end_body(&mut self) -> Result<(), WktFault>
        requires { IsAfterRing self.old }
        ensures { (b : Context) (at : ℕ) → self.old ≡ AfterRing b
            → Took result self.new (Ok (close_body b)) at }
    {
        let next = if self.multi {
            self.members.reserve(1)?;
            Expecting::BodyEnd
        } else {
            // The one member that there will be.
            self.members.reserve_exact(1)?;
            Expecting::End
        };
        let member = take_member(&mut self.rings)?;
        self.members.push_reserved(member);
        self.expecting = next;
        Ok(())
    }

    /// The polygon, where the text ends at this offset.
    pub fn finish(self, end: usize) -> Result<Polygon, WktFault>
        ensures { ParseEnds result (limited_step self End) end }
    {
        let code = match self.expecting {
            Expecting::End => match Polygon::new(without_spare(self.members)?) {
                Ok(polygon) => return Ok(polygon),
                Err(_) => unreachable!(),
            },
            Expecting::Keyword => WktCode::Keyword,
            _ => WktCode::Syntax,
        };
        Err(WktFault::At { code, offset: end })
    }
}
