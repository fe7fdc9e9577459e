//! What the words of a command line ask for.

ghost use Rattle.std.specs.Prelude.{◌≡◌, IfOk, map};
ghost use Rattle.clap.specs.Words.{FailsBy, fault_of, subcommand_of, subcommand_rows_of};
ghost use Rattle.lpis_command_line.specs.Commands.{IsRequest, command_line_app};
ghost use Rattle.lpis_command_line.specs.Words.{Finds};

use crate::command_line::command_line;
use crate::commands::{Request, request_named};
use clap::{ArgMatches, Error};
use std::alloc::Global;

/// What `clap` makes of the words, the program's name being the first of them: the command that
/// `request_of` finds in it.
///
/// The error has `clap`'s text and exit code; out of memory is its kind `OutOfMemory`.
pub fn matches_of<'a>(alloc: Global, words: &'a [&'a str]) -> Result<ArgMatches<'a>, Error>
    ensures matches { IfOk result (λ m. subcommand_rows_of m
        ≡ subcommand_of command_line_app (map (λ s. s.now) words.entry.now)) }
    ensures kinds { FailsBy (fault_of command_line_app (map (λ s. s.now) words.entry.now)) result }
{
    let mut line = command_line(alloc)?;
    line.try_get_matches_from_mut(words)
}

/// What the words of these matches ask for: none only where they ask for nothing, as no accepted
/// line does, since a command and its words are required. The identifiers of `trace` are lent by
/// the matches, so that a request owns nothing and takes no memory.
pub fn request_of<'m, 'a>(matches: &'m ArgMatches<'a>) -> Option<Request<'m>>
    ensures { Finds (λ r. IsRequest r (subcommand_rows_of matches.now)) result }
{
    let (name, inner) = matches.subcommand()?;
    request_named(name, inner)
}
