//! The words of a line.

ghost use Rattle.std.specs.Prelude.{◌≡◌, ◌∷◌, [], MatchOption, position, None, Some, cond, length};
ghost use Rattle.std.specs.Prelude.{List, ℕ};
ghost use Rattle.std.specs.List.{list_any};
ghost use Rattle.lpis_cert.specs.Reading.{is_gap, is_empty, words};

use std::marker::Model;

/// The words of a line that are not taken yet.
#[derive(Drop)]
pub(crate) struct Words<'a> {
    line: &'a [u8],
    more: bool,
}

impl<'a> Model for Words<'a> {
    ghost use Rattle.std.specs.Prelude.{ℕ, List, [], cond};
    ghost use Rattle.lpis_cert.specs.Reading.{words};

    ghost Value = { List (List ℕ) };

    ghost view = { λ w. cond w.more (words w.line.now) [] };
}

fn gap_of(line: &[u8]) -> Option<usize>
    ensures { result ≡ position is_gap line.now }
{
    line.iter().position(|b| *b == b' ')
}

impl<'a> Words<'a> {
    pub(crate) fn new(line: &'a [u8]) -> Self
        ensures { result ≡ words line.now }
    {
        Words { line, more: true }
    }

    /// The same words again.
    pub(crate) fn copy(&self) -> Words<'a>
        ensures { result ≡ self.now }
    {
        Words {
            line: self.line,
            more: self.more,
        }
    }

    /// The next word, which stays.
    pub(crate) fn front(&self) -> Option<&'a [u8]>
        ensures { MatchOption result (self.now ≡ []) (λ w. (rest : List (List ℕ))
            × (self.now ≡ w.now ∷ rest)) }
    {
        if !self.more {
            return None;
        }
        match gap_of(self.line) {
            None => Some(self.line),
            Some(at) => Some(&self.line[..at]),
        }
    }

    pub(crate) fn next(&mut self) -> Option<&'a [u8]>
        ensures { MatchOption result ((self.old ≡ []) × (self.new ≡ []))
            (λ w. self.old ≡ w.now ∷ self.new) }
    {
        if !self.more {
            return None;
        }
        match gap_of(self.line) {
            None => {
                let word = self.line;
                self.more = false;
                Some(word)
            }
            Some(at) => {
                let word = &self.line[..at];
                self.line = &self.line[at + 1..];
                Some(word)
            }
        }
    }
}

/// How many words a line has, if none is empty.
pub(crate) fn count(line: &[u8]) -> Option<usize>
    ensures { result ≡ cond (list_any is_empty (words line.now)) None
        (Some (length (words line.now))) }
{
    let mut gaps = 0;
    let mut in_word = false;
    for b in line {
        if *b == b' ' {
            if !in_word {
                return None;
            }
            in_word = false;
            gaps += 1;
        } else {
            in_word = true;
        }
    }
    if in_word { Some(gaps + 1) } else { None }
}
