//! The program's command line, as `clap` is handed it.

ghost use Rattle.std.specs.Prelude.{◌≡◌, IfOk, false};
ghost use Rattle.clap.specs.Words.{App, new_app, rule_of};
ghost use Rattle.lpis_command_line.specs.Commands.{command_line_app, program_app};
ghost use Rattle.lpis_command_line.specs.private.Table.{IsCommandOf, line_app, rule_of_argument};
ghost use Rattle.lpis_command_line.specs.private.Table.{with_argument, with_command};

use crate::arguments::{Argument, Line, Takes};
use crate::commands::COMMANDS;
use clap::builder::ValueParser;
use clap::{Arg, ArgAction, Command};
use std::alloc::{AllocError, Global};

/// The version that `--version` prints.
const VERSION: &str = "0.4.0";

/// What help has at its end.
const MORE: &str = "Examples:
  lpis check release
  lpis publish register.db 2026 release

Statuses: 0 yes, or done; 1 refused; 2 an input or a command line that cannot be read;
3 memory, a file or the database failed.

Read on: man lpis, docs/GUIDE.md (a year step by step), docs/FORMATS.md (files and codes).";

/// What `clap` makes of an argument, but for the text that help has for it.
fn arg_of<'a>(alloc: Global, argument: &Argument) -> Arg<'a>
    ensures rule { rule_of result ≡ rule_of_argument argument.now }
    ensures local { result.global ≡ false }
{
    let id = argument.id;
    let arg = Arg::new(alloc, id);
    match argument.takes {
        Takes::Word => arg.required(true).action(ArgAction::Set),
        Takes::WordIfAny => arg.action(ArgAction::Set),
        Takes::Words => arg.required(true).action(ArgAction::Append),
        Takes::Year => arg
            .required(true)
            .action(ArgAction::Set)
            .value_parser(ValueParser::unsigned(1, 9999)),
        Takes::Nothing => arg.long(id).action(ArgAction::SetTrue),
        Takes::File => arg.long(id).action(ArgAction::Set).value_name("file"),
    }
}

/// An argument with the text that help has for it.
fn described<'a>(argument: Arg<'a>, text: &'a str) -> Arg<'a>
    ensures rule { rule_of result ≡ rule_of argument.entry }
    ensures local { result.global ≡ argument.entry.global }
{
    argument.help(text)
}

/// A command with an argument more, where memory was there for it. It is handed the result as it
/// is, so that no caller has to let go of a command.
fn extended<'a>(
    alloc: Global,
    command: Result<Command<'a>, AllocError>,
    argument: &Argument,
) -> Result<Command<'a>, AllocError>
    ensures { (one : App) → IfOk command.entry (IsCommandOf one)
        → IfOk result (IsCommandOf (with_argument one argument.now)) }
{
    let arg = described(arg_of(alloc, argument), argument.text);
    command?.arg(arg)
}

/// A command without its arguments.
fn begun<'a>(alloc: Global, line: &Line) -> Command<'a>
    ensures { IsCommandOf (new_app line.now.name.now) result }
{
    Command::new(alloc, line.name).about(line.about)
}

/// A command of the table.
fn made<'a>(alloc: Global, line: &Line) -> Result<Command<'a>, AllocError>
    ensures { IfOk result (IsCommandOf (line_app line.now)) }
{
    let mut command = Ok(begun(alloc, line));
    for argument in line.arguments {
        command = extended(alloc, command, argument);
    }
    command
}

/// The program, before its commands: it has a version, and one of the commands has to be there.
fn program<'a>(alloc: Global) -> Command<'a>
    ensures { IsCommandOf program_app result }
{
    Command::new(alloc, "lpis")
        .about("Checks the releases of a Land Parcel Identification System")
        .version(VERSION)
        .after_help(MORE)
        .subcommand_required(true)
}

/// The program with a command more, where memory was there for both.
fn joined<'a>(
    program: Result<Command<'a>, AllocError>,
    command: Result<Command<'a>, AllocError>,
) -> Result<Command<'a>, AllocError>
    ensures { (whole one : App) → IfOk program.entry (IsCommandOf whole)
        → IfOk command.entry (IsCommandOf one)
        → IfOk result (IsCommandOf (with_command whole one)) }
{
    program?.subcommand(command?)
}

/// The program's command line.
pub(crate) fn command_line<'a>(alloc: Global) -> Result<Command<'a>, AllocError>
    ensures { IfOk result (IsCommandOf command_line_app) }
{
    let mut whole = Ok(program(alloc));
    for line in &COMMANDS {
        whole = joined(whole, made(alloc, line));
    }
    whole
}
