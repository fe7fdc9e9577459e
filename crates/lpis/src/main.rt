//! The release checker of a Land Parcel Identification System.
//!
//! No crate stands on it.
//! Begin at `src/main.rt`.
#![tactic(auto)]

mod host;

use clap::ArgMatches;
use clap::error::ErrorKind;
use host::Host;
use lpis_command_line::{matches_of, request_of, usage_ends};
use lpis_perform::perform;
use lpis_run::{Failure, print_failure, status_of};
use std::alloc::Global;
use std::env::Args;
use std::process::ExitCode;
use std::{env, io};

/// Ends with the status of the command, or reports on standard error why there is none.
fn main(rt: HostRuntime) -> ExitCode {
    let ran = run(&rt);
    if let Err(failure) = &ran {
        // Where standard error is closed, the status alone says so.
        let _ = print_failure(failure, &mut rt.stderr());
    }
    ExitCode::from(status_of(&ran))
}

/// Runs the command that the words of the command line ask for.
fn run(rt: &HostRuntime) -> Result<u8, Failure> {
    match env::args(rt) {
        Ok(given) => run_words(rt, given),
        Err(error) if error.kind() == io::ErrorKind::InvalidData => {
            let printed = eprintln!(rt; "error: a word of the command line is not UTF-8");
            usage_ends(ErrorKind::InvalidValue, printed.is_ok())
        }
        Err(_) => Err(Failure::Memory),
    }
}

/// Runs the command that these words ask for.
fn run_words(rt: &HostRuntime, given: Args<Global>) -> Result<u8, Failure> {
    // Word by word: `collect` asks for room for all of them, and goes on where it gets none.
    let mut words: Vec<String> = Vec::new(rt.alloc());
    for word in given {
        words.push(word)?;
    }
    run_texts(rt, words.as_slice())
}

/// The same, of words that are lent.
fn run_texts(rt: &HostRuntime, words: &[String]) -> Result<u8, Failure> {
    let alloc = rt.alloc();
    let mut texts: Vec<&str> = Vec::new(alloc);
    for word in words {
        texts.push(word.as_str())?;
    }
    match matches_of(alloc, texts.as_slice()) {
        Ok(matches) => perform_asked(rt, &matches),
        Err(error) => tell(rt, &error),
    }
}

/// Prints the text of `clap`: a fault of the command line on standard error, help on standard
/// output.
fn tell(rt: &HostRuntime, error: &clap::Error) -> Result<u8, Failure> {
    let kind = error.kind();
    // Out of memory is a failure, which has a line of its own.
    let is_printed = kind != ErrorKind::OutOfMemory && error.print(rt).is_ok();
    usage_ends(kind, is_printed)
}

/// Performs what these matches ask for.
fn perform_asked(rt: &HostRuntime, matches: &ArgMatches<'_>) -> Result<u8, Failure> {
    match request_of(matches) {
        Some(request) => perform(rt.alloc(), &Host::new(rt), &request, &mut rt.stdout()),
        // No accepted line comes here: a command and its words are required.
        None => usage_ends(ErrorKind::MissingRequiredArgument, false),
    }
}
