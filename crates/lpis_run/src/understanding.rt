//! What tables and the text of a certificate say.

ghost use Rattle.std.specs.Prelude.{◌≡◌, IfErr, IfOk, List, Ok, Option, ℕ};
ghost use Rattle.std.specs.Option.{option_map};
ghost use Rattle.lpis_cert.specs.Contents.{IsCertText};
ghost use Rattle.lpis_cert.specs.Faults.{verdict};
ghost use Rattle.lpis_run.specs.CheckAnswer.{IsCertAnswer, IsInputAnswer, IsNamedAnswer};
ghost use Rattle.lpis_run.specs.CheckAnswer.{IsTableAnswer, release_in};
ghost use Rattle.lpis_run.specs.Inputs.{IsNamed, Say, inputs_of, tables_of};
ghost use Rattle.lpis_run.specs.private.Reading.{IsReadAs, IsReadIfAnyAs};
ghost use Rattle.lpis_run.specs.Refusals.{cert_refusal_text};
ghost use Rattle.lpis_run.specs.Status.{unreadable};
ghost use Rattle.lpis_run.specs.Stops.{IsRefusedAs};

use crate::answer::Answer;
use crate::folder::{Folder, Tables};
use crate::refusal::print_cert_fault;
use crate::status::UNREADABLE;
use crate::stop::Stop;
use lpis_cert::{Cert, CertFault, read_cert_of};
use lpis_release::{Release, read_release};
use lpis_tables::TableFault;
use std::alloc::{AllocError, Global};

/// A release and a certificate, as they were read.
#[derive(Drop)]
pub struct ReadInputs {
    /// The release of the tables.
    pub release: Release,
    /// The certificate of the text, where one is named.
    pub cert: Option<Cert>,
}

/// The line of a text that is no certificate.
fn refuse_text(alloc: Global, fault: &CertFault) -> Result<Answer, AllocError>
    ensures { IfOk result (λ a. (a.text.items ≡ cert_refusal_text fault.now)
        × (a.status ≡ unreadable)) }
{
    let mut text = Vec::new(alloc);
    let printed = print_cert_fault(fault, &mut text);
    Answer::of(text, UNREADABLE, printed)
}

/// The release of three tables, whose bytes are let go, or the line of their first fault.
pub fn release_in(alloc: Global, tables: Tables<Vec<u8>>) -> Result<Release, Stop>
    ensures said { IfOk result (λ r. release_in (tables_of tables) ≡ Ok r) }
    ensures refused { IfErr result (IsRefusedAs (IsTableAnswer (λ r a. ⊥)
        (release_in (tables_of tables)))) }
{
    let Tables {
        parcels,
        covers,
        classes,
    } = tables;
    match read_release(alloc, parcels, covers, classes) {
        Ok(release) => Ok(release),
        Err(TableFault::Memory) => Err(Stop::Memory),
        Err(fault) => Err(Stop::Refused(Answer::refuse_table(alloc, &fault)?)),
    }
}

/// What a text was read as, whose bytes are let go: a certificate, or the text's first fault.
fn cert_in(alloc: Global, text: Vec<u8>) -> Result<Cert, CertFault>
    ensures { IsReadAs text.items result }
{
    read_cert_of(alloc, text)
}

/// The certificate that a text was read as, or the line of the text's first fault.
fn understand_cert(alloc: Global, read: Result<Cert, CertFault>) -> Result<Cert, Stop>
    ensures said { (text : List ℕ) → IsReadAs text read → IfOk result (IsCertText text) }
    ensures refused { (text : List ℕ) → IsReadAs text read
        → IfErr result (IsRefusedAs (IsCertAnswer (λ c a. ⊥) text (verdict text))) }
{
    match read {
        Ok(cert) => Ok(cert),
        Err(CertFault::Memory) => Err(Stop::Memory),
        Err(fault) => Err(Stop::Refused(refuse_text(alloc, &fault)?)),
    }
}

/// The certificate of a text, whose bytes are let go, or the line of the text's first fault.
pub fn certificate_in(alloc: Global, text: Vec<u8>) -> Result<Cert, Stop>
    ensures said { IfOk result (IsCertText text.items) }
    ensures refused { IfErr result
        (IsRefusedAs (IsCertAnswer (λ c a. ⊥) text.items (verdict text.items))) }
{
    let read = cert_in(alloc, text);
    understand_cert(alloc, read)
}

/// What a text was read as, if there is one.
fn cert_if_any(alloc: Global, text: Option<Vec<u8>>) -> Option<Result<Cert, CertFault>>
    ensures { IsReadIfAnyAs (option_map (λ v. v.items) text) result }
{
    match text {
        Some(text) => Some(cert_in(alloc, text)),
        None => None,
    }
}

/// The certificate that a text was read as, if there is one, or the line of the text's first fault.
fn understand_if_any(
    alloc: Global,
    read: Option<Result<Cert, CertFault>>,
) -> Result<Option<Cert>, Stop>
    ensures said { (text : Option (List ℕ)) → IsReadIfAnyAs text read
        → IfOk result (IsNamed text) }
    ensures refused { (text : Option (List ℕ)) → IsReadIfAnyAs text read
        → IfErr result (IsRefusedAs (IsNamedAnswer (λ named a. ⊥) text)) }
{
    match read {
        Some(read) => match understand_cert(alloc, read) {
            Ok(cert) => Ok(Some(cert)),
            Err(stop) => Err(stop),
        },
        None => Ok(None),
    }
}

/// The release of three tables and the certificate of a text, where one is named, or the line of
/// their first fault.
///
/// The certificate is read first, since its text is the longest as a rule, and the bytes of each
/// input are let go when it is read; the fault of the tables is told first all the same.
pub fn understand(alloc: Global, inputs: Folder<Vec<u8>>) -> Result<ReadInputs, Stop>
    ensures said { IfOk result (λ r. Say (inputs_of inputs) r.release r.cert) }
    ensures refused { IfErr result (IsRefusedAs (IsInputAnswer (λ r named a. ⊥)
        (inputs_of inputs))) }
{
    let Folder { tables, cert } = inputs;
    let read = cert_if_any(alloc, cert);
    let release = release_in(alloc, tables)?;
    let cert = understand_if_any(alloc, read)?;
    Ok(ReadInputs { release, cert })
}
