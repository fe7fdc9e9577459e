//! A reader that is interrupted before each read, and may fail.

use std::io;
use std::io::{Error, ErrorKind, Read};

/// A reader of single bytes with an interruption before each, which fails where `left` bytes were
/// read, if that is given.
#[derive(Drop)]
pub struct Halting<'a> {
    bytes: &'a [u8],
    is_interrupted: bool,
    left: Option<usize>,
}

impl<'a> Halting<'a> {
    /// A reader of a text, which fails after so many bytes, if that is given.
    pub fn new(text: &'a str, left: Option<usize>) -> Halting<'a> {
        Halting {
            bytes: text.as_bytes(),
            is_interrupted: false,
            left,
        }
    }

    /// A reader of the input at an index. Where one is to fail it does so after so many bytes,
    /// and those behind it at once.
    pub fn at(index: usize, text: &'a str, failing: Option<(usize, usize)>) -> Halting<'a> {
        let left = match failing {
            Some((first, bytes)) if index == first => Some(bytes),
            Some((first, _)) if index > first => Some(0),
            _ => None,
        };
        Halting::new(text, left)
    }
}

impl Read for Halting<'_> {
    fn read(&mut self, buf: &mut [u8]) -> io::Result<usize> {
        self.is_interrupted = !self.is_interrupted;
        if self.is_interrupted {
            return Err(Error::from(ErrorKind::Interrupted));
        }
        if self.left == Some(0) {
            return Err(Error::from(ErrorKind::Other));
        }
        let Some((first, rest)) = self.bytes.split_first() else {
            return Ok(0);
        };
        let Some(slot) = buf.first_mut() else {
            return Ok(0);
        };
        *slot = *first;
        self.bytes = rest;
        self.left = self.left.map(|left| left.saturating_sub(1));
        Ok(1)
    }
}
