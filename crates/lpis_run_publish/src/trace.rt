//! The run of `trace`, over any register and writer.

ghost use Rattle.std.specs.Prelude.{◌≡◌, ◌++◌, ◌≤◌, ◌<◌, IfOk, List, None, OnOk, get_or, length};
ghost use Rattle.std.specs.Prelude.{map, ℕ};
ghost use Rattle.std.specs.Io.KnownBytes.{Appends};
ghost use Rattle.std.specs.List.{AllZip, flat_map};
ghost use Rattle.lpis_lineage.specs.Tracings.{AreDescendants, AreTraced, most_asked, reached_by};
ghost use Rattle.lpis_run.specs.Run.{Runs};
ghost use Rattle.lpis_run.specs.Status.{done};
ghost use Rattle.lpis_run.specs.declared.failure.Failure.TheVariants.{Memory};
ghost use Rattle.lpis_run_publish.specs.TraceAnswer.{AreTraceAnswers, IsTraceAnswer, IsWholeTrace};
ghost use Rattle.lpis_run_publish.specs.TraceAnswer.{id_line, status_of_both, trace_line};
ghost use Rattle.lpis_run_publish.specs.private.Tracing.{GoesOn, IsReadAs};

use crate::lineage_lines::refuse;
use lpis_lineage::{MOST_ASKED, Tracing};
use lpis_register::{PublishFault, Register};
use lpis_run::{Answer, DONE, Failure, PrintFault, REFUSED};
use lpis_tables::Id;
use sqlite::Alter;
use std::alloc::{AllocError, Global};
use std::io::Write;

/// Writes identifiers, each on a line of its own.
fn print_ids<W: Write>(ids: &[Id], out: &mut W) -> Result<(), PrintFault>
    ensures { OnOk result (Appends (W.contents out.old) (W.contents out.new)
        (flat_map id_line ids.now)) }
{
    for id in ids {
        write!(out, "{}\n", id.as_str())?;
    }
    Ok(())
}

/// The lines of identifiers.
fn list_ids(alloc: Global, ids: &[Id]) -> Result<Answer, AllocError>
    ensures { IfOk result (λ a. (a.text.items ≡ flat_map id_line ids.now) × (a.status ≡ done)) }
{
    let mut text = Vec::new(alloc);
    let printed = print_ids(ids, &mut text);
    Answer::of(text, DONE, printed)
}

/// The identifiers that the words are; `None` where a word is none.
fn read_words(alloc: Global, words: &[&str]) -> Result<Vec<Option<Id>>, AllocError>
    ensures { IfOk result (λ v. AllZip (λ w id. IsReadAs w.now id) words.now v.items) }
{
    let mut ids = Vec::with_capacity(alloc, words.len())?;
    for word in words {
        let id = Id::read(alloc, word.as_bytes())?;
        ids.push(id)?;
    }
    Ok(ids)
}

/// The answer to an identifier that was asked at this place of a tracing.
fn answer_to_id<S: Alter>(
    alloc: Global,
    register: &Register<S>,
    tracing: &Tracing,
    asker: usize,
    id: &Id,
) -> Result<Answer, AllocError>
    requires asker { asker < most_asked }
    requires traced { AreDescendants register.now.held.history (reached_by asker tracing.now)
        id.now }
    ensures { IfOk result
        (λ a. IsTraceAnswer id.now register.now.held.history (a.text.items, a.status)) }
{
    match register.trace(tracing, asker, id) {
        Ok(ids) => list_ids(alloc, ids.as_slice()),
        Err(PublishFault::Unknown) => refuse(alloc, &PublishFault::Unknown, REFUSED),
        // Nothing else is reported of an identifier.
        Err(_) => Err(AllocError),
    }
}

/// The answer to the word that was read and asked at this place of a tracing.
fn answer_to<S: Alter>(
    alloc: Global,
    register: &Register<S>,
    tracing: &Tracing,
    asked: &[Option<Id>],
    place: usize,
    word: &str,
) -> Result<Answer, AllocError>
    requires few { length asked.now ≤ most_asked }
    requires within { place < length asked.now }
    requires traced { AreTraced register.now.held.history asked.now tracing.now }
    requires read { IsReadAs word.now (get_or asked.now place None) }
    ensures { IfOk result
        (λ a. IsTraceAnswer word.now register.now.held.history (a.text.items, a.status)) }
{
    match &asked[place] {
        Some(id) => answer_to_id(alloc, register, tracing, place, id),
        None => refuse(alloc, &PublishFault::Unknown, REFUSED),
    }
}

/// Adds the answer to a word, after the word's line.
fn add_answer(word: &str, answer: &Answer, text: &mut Vec<u8>) -> Result<(), AllocError>
    ensures { OnOk result (text.new.items
        ≡ text.old.items ++ trace_line word.now ++ answer.now.text.items) }
{
    text.extend_from_slice(b"trace ")?;
    text.extend_from_slice(word.as_bytes())?;
    text.push(b'\n')?;
    text.extend_from_slice(answer.text.as_slice())?;
    Ok(())
}

/// Of two statuses, `DONE` where both are, else the first that is not.
fn status_of_two(first: u8, next: u8) -> u8
    ensures { result ≡ status_of_both first next }
{
    if first == DONE { next } else { first }
}

/// Adds the answers to words that were read and traced, each after the word's line. Ok is the
/// status of all so far.
fn add_each<S: Alter>(
    alloc: Global,
    register: &Register<S>,
    tracing: &Tracing,
    asked: &[Option<Id>],
    words: &[&str],
    so_far: u8,
    text: &mut Vec<u8>,
) -> Result<u8, AllocError>
    requires few { length asked.now ≤ most_asked }
    requires traced { AreTraced register.now.held.history asked.now tracing.now }
    requires read { AllZip (λ w id. IsReadAs w.now id) words.now asked.now }
    ensures { IfOk result (λ status. (all left : List (List ℕ))
        → GoesOn register.now.held.history all (map (λ w. w.now) words.now ++ left)
        (text.old.items, so_far) → GoesOn register.now.held.history all left
        (text.new.items, status)) }
{
    let mut status = so_far;
    for place in 0..words.len() {
        let word = words[place];
        let answer = answer_to(alloc, register, tracing, asked, place, word)?;
        add_answer(word, &answer, text)?;
        status = status_of_two(status, answer.status);
    }
    Ok(status)
}

/// Adds the answers to no more words than one walk follows.
fn add_answers<S: Alter>(
    alloc: Global,
    register: &Register<S>,
    words: &[&str],
    so_far: u8,
    text: &mut Vec<u8>,
) -> Result<u8, AllocError>
    requires { length words.now ≤ most_asked }
    ensures { IfOk result (λ status. (all left : List (List ℕ))
        → GoesOn register.now.held.history all (map (λ w. w.now) words.now ++ left)
        (text.old.items, so_far) → GoesOn register.now.held.history all left
        (text.new.items, status)) }
{
    let ids = read_words(alloc, words)?;
    let asked = ids.as_slice();
    let tracing = register.follow(asked)?;
    add_each(alloc, register, &tracing, asked, words, so_far, text)
}

/// The answers to words, each after the word's line.
fn answer_to_each<S: Alter>(
    alloc: Global,
    register: &Register<S>,
    words: &[&str],
) -> Result<Answer, AllocError>
    ensures { IfOk result (λ a. AreTraceAnswers (map (λ w. w.now) words.now)
        register.now.held.history (a.text.items, a.status)) }
{
    let mut text = Vec::new(alloc);
    let mut status = DONE;
    let mut done = 0;
    'words: while done < words.len() {
        let end = done + (words.len() - done).min(MOST_ASKED);
        status = add_answers(alloc, register, &words[done..end], status, &mut text)?;
        done = end;
    }
    Ok(Answer { text, status })
}

/// The answer to one word.
fn answer_to_one<S: Alter>(
    alloc: Global,
    register: &Register<S>,
    word: &str,
) -> Result<Answer, AllocError>
    ensures { IfOk result
        (λ a. IsTraceAnswer word.now register.now.held.history (a.text.items, a.status)) }
{
    let id = Id::read(alloc, word.as_bytes())?;
    let mut ids = Vec::new(alloc);
    ids.push(id)?;
    let asked = ids.as_slice();
    let tracing = register.follow(asked)?;
    answer_to(alloc, register, &tracing, asked, 0, word)
}

/// The answer to words: of one alone, or of several each after its line.
fn answer_to_words<S: Alter>(
    alloc: Global,
    register: &Register<S>,
    words: &[&str],
) -> Result<Answer, AllocError>
    ensures { IfOk result (λ a. IsWholeTrace (map (λ w. w.now) words.now)
        register.now.held.history (a.text.items, a.status)) }
{
    match words {
        [word] => answer_to_one(alloc, register, word),
        _ => answer_to_each(alloc, register, words),
    }
}

/// Prints the identifiers of the last release that chains of lineage rows reach from this one,
/// itself among them where it is live: ascending, a line each. A word that is no identifier, or one
/// that no release has, is refused. Of several words, each answer is printed after a line of its
/// word, in their order.
///
/// What is printed is whole in memory before anything is written. Ok is the status: `DONE` where no
/// word is refused, else `REFUSED`. The register stays as it is.
pub fn run_trace<S: Alter, W: Write>(
    alloc: Global,
    register: &Register<S>,
    words: &[&str],
    out: &mut W,
) -> Result<u8, Failure>
    ensures runs { Runs (λ failure. failure ≡ Memory)
        (IsWholeTrace (map (λ w. w.now) words.now) register.now.held.history)
        (W.contents out.old) (W.contents out.new) result }
{
    let answer = answer_to_words(alloc, register, words)?;
    answer.write_to(out)
}
