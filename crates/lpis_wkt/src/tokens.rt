//! The tokens of a text, one at a time.

ghost use Rattle.std.specs.Bool.{MatchBool};
ghost use Rattle.std.specs.Prelude.{◌≡◌, ℕ, ◌<◌, ◌≤◌, [], ◌∷◌, false, true, length, drop};
ghost use Rattle.std.specs.Prelude.{slice_index, slice_range, MatchOption};
ghost use Rattle.lpis_wkt.specs.Tokens.{Comma, Word, is_space, tokens_from};
ghost use Rattle.lpis_wkt.specs.private.Runs.{is_word};
ghost use Rattle.lpis_wkt.specs.private.Coming.{ComeFirst, ComesFirst, Took};
ghost use Rattle.lpis_wkt.specs.private.Views.{token_placed};

use crate::coordinate::Coordinate;
use crate::fast_path::{SHORT_ROOM, common_coordinate, short_coordinate};
use std::marker::Model;

/// A `(`, a `)`, a `,` or a word, which is borrowed from the text.
#[derive(Clone, Copy)]
pub enum Token<'a> {
    Open,
    Close,
    Comma,
    Word(&'a [u8]),
}

/// A token, and the offset of its first byte.
#[derive(Clone, Copy)]
pub struct Placed<'a> {
    pub token: Token<'a>,
    pub offset: usize,
}

/// The coordinates that were taken where a point may come.
#[derive(Clone, Copy)]
pub enum Ahead {
    /// None.
    Nothing,
    /// An x, with no y behind it.
    X(Coordinate),
    /// An x and a y.
    Point(Coordinate, Coordinate),
}

/// The tokens of a text that are not taken yet.
#[derive(Drop)]
pub struct Tokens<'a> {
    text: &'a [u8],
    at: usize,
}

impl<'a> Model for Tokens<'a> {
    ghost use Rattle.std.specs.Prelude.{ℕ, List, drop, length, ◌≤◌};
    ghost use Rattle.lpis_wkt.specs.Tokens.{Token, tokens_from};

    ghost Value = { List (ℕ × Token) };

    ghost view = { λ t. tokens_from t.at (drop t.at t.text.now) };

    ghost invariant = { λ t. t.at ≤ length t.text.now };
}

/// Whether the byte is white space: space, tab, CR or LF.
fn is_space(b: u8) -> bool
    ensures { result ≡ is_space b }
{
    b == b' ' || b == b'\t' || b == b'\r' || b == b'\n'
}

/// Whether the byte belongs to a word.
pub fn is_word(b: u8) -> bool
    ensures { result ≡ is_word b }
{
    !(is_space(b) || b == b'(' || b == b')' || b == b',')
}

/// Where the next token begins, or the end.
fn past_space(text: &[u8], at: usize) -> usize
    requires { at ≤ length text.now }
    ensures within { result ≤ length text.now }
    ensures stops { result < length text.now → is_space (slice_index text.now result) ≡ false }
    ensures same { tokens_from result (drop result text.now) ≡ tokens_from at (drop at text.now) }
{
    let mut i = at;
    while i < text.len() && is_space(text[i]) {
        i += 1;
    }
    i
}

/// Where the word that begins here ends.
fn past_word(text: &[u8], at: usize) -> usize
    requires within { at < length text.now }
    requires word { is_word (slice_index text.now at) ≡ true }
    ensures after { at < result }
    ensures within { result ≤ length text.now }
    ensures word { tokens_from at (drop at text.now) ≡ (at, Word (slice_range text.now at result))
        ∷ tokens_from result (drop result text.now) }
{
    let mut i = at + 1;
    while i < text.len() && is_word(text[i]) {
        i += 1;
    }
    i
}

impl<'a> Tokens<'a> {
    /// The tokens of a text.
    pub fn new(text: &'a [u8]) -> Self
        ensures { result ≡ tokens_from 0 text.now }
    {
        Tokens { text, at: 0 }
    }

    /// The next token, or `None` at the end.
    pub fn next(&mut self) -> Option<Placed<'a>>
        ensures { MatchOption result ((self.old ≡ []) × (self.new ≡ []))
            (λ t. self.old ≡ token_placed t ∷ self.new) }
    {
        let offset = past_space(self.text, self.at);
        self.at = offset;
        if offset == self.text.len() {
            return None;
        }
        let byte = self.text[offset];
        if byte == b'(' {
            self.at = offset + 1;
            let token = Token::Open;
            return Some(Placed { token, offset });
        }
        if byte == b')' {
            self.at = offset + 1;
            let token = Token::Close;
            return Some(Placed { token, offset });
        }
        if byte == b',' {
            self.at = offset + 1;
            let token = Token::Comma;
            return Some(Placed { token, offset });
        }
        let end = past_word(self.text, offset);
        self.at = end;
        let token = Token::Word(&self.text[offset..end]);
        Some(Placed { token, offset })
    }

    /// The coordinate of the next token, if it is a word that is written as most are; else nothing
    /// is taken.
    fn next_coordinate(&mut self) -> Option<Coordinate>
        ensures { MatchOption result (self.new ≡ self.old)
            (λ z. ComesFirst z self.old self.new) }
    {
        let offset = past_space(self.text, self.at);
        if offset == self.text.len() {
            return None;
        }
        let (value, end) = common_coordinate(self.text, offset)?;
        self.at = end;
        Some(value)
    }

    /// The coordinates of the next two tokens, if they are words as short as nearly all are; else
    /// nothing is taken.
    fn next_point(&mut self) -> Option<(Coordinate, Coordinate)>
        ensures { MatchOption result (self.new ≡ self.old)
            (λ p. ComeFirst p.0 p.1 self.old self.new) }
    {
        let first = past_space(self.text, self.at);
        if self.text.len() - first < SHORT_ROOM {
            return None;
        }
        let (x, after) = short_coordinate(self.text, first)?;
        let second = past_space(self.text, after);
        if self.text.len() - second < SHORT_ROOM {
            return None;
        }
        let (y, end) = short_coordinate(self.text, second)?;
        self.at = end;
        Some((x, y))
    }

    /// Takes the next two tokens, or the next one, as far as they are words that spell coordinates
    /// and are written as most are.
    pub fn next_coordinates(&mut self) -> Ahead
        ensures { Took result self.old self.new }
    {
        if let Some((x, y)) = self.next_point() {
            return Ahead::Point(x, y);
        }
        let Some(x) = self.next_coordinate() else {
            return Ahead::Nothing;
        };
        match self.next_coordinate() {
            Some(y) => Ahead::Point(x, y),
            None => Ahead::X(x),
        }
    }

    /// Whether the next token is a `,`, which is taken then; else nothing is.
    pub fn next_comma(&mut self) -> bool
        ensures { MatchBool result ((offset : ℕ) × (self.old ≡ (offset, Comma) ∷ self.new))
            (self.new ≡ self.old) }
    {
        let offset = past_space(self.text, self.at);
        if offset < self.text.len() && self.text[offset] == b',' {
            self.at = offset + 1;
            true
        } else {
            false
        }
    }
}
