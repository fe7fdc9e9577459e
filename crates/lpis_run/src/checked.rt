//! A release that is a sound map by its certificate.

ghost use Rattle.std.specs.Prelude.{◌≡◌, IfErr, IfOk};
ghost use Rattle.lpis_checker.specs.GoodCertificate.{IsGood};
ghost use Rattle.lpis_checker.specs.SoundMap.{IsSoundMap};
ghost use Rattle.lpis_cert.specs.declared.cert.Cert.{Cert};
ghost use Rattle.lpis_run.specs.CheckAnswer.{IsCheckAnswer, IsProvedOf, IsRefusal, IsUsedAnswer};
ghost use Rattle.lpis_run.specs.Inputs.{IsTaken, inputs_of};
ghost use Rattle.lpis_run.specs.Refusals.{check_refusal_text};
ghost use Rattle.lpis_run.specs.Status.{refused};
ghost use Rattle.lpis_run.specs.Stops.{IsRefusedAs};

use crate::answer::Answer;
use crate::folder::Folder;
use crate::making::cert_for;
use crate::refusal::print_check_fault;
use crate::status::REFUSED;
use crate::stop::Stop;
use crate::understanding::{ReadInputs, understand};
use lpis_cert::Cert;
use lpis_checker::{CheckFault, Yes, check};
use lpis_pairs::Sweep;
use lpis_release::Release;
use std::alloc::{AllocError, Global};

/// The line of a certificate that is not good.
fn refuse_cert(alloc: Global, fault: &CheckFault) -> Result<Answer, AllocError>
    ensures { IfOk result (λ a. (a.text.items ≡ check_refusal_text fault.now)
        × (a.status ≡ refused)) }
{
    let mut text = Vec::new(alloc);
    let printed = print_check_fault(fault, &mut text);
    Answer::of(text, REFUSED, printed)
}

/// The yes to a release, whose certificate is good, or the line of the certificate's first fault.
pub fn say_yes<'a>(alloc: Global, release: &'a Release, cert: &Cert) -> Result<Yes<'a>, Stop>
    ensures yes { IfOk result (λ y. (y ≡ release.now) × IsSoundMap release.now
        × IsGood release.now cert.now) }
    ensures refused { IfErr result (IsRefusedAs (IsCheckAnswer release.now cert.now (λ a. ⊥))) }
{
    match check(alloc, release, cert, &Sweep) {
        Ok(yes) => {
            // What is checked is a sound map.
            let _ = yes.release();
            Ok(yes)
        }
        Err(CheckFault::Memory) => Err(Stop::Memory),
        Err(fault) => Err(Stop::Refused(refuse_cert(alloc, &fault)?)),
    }
}

/// Whether the certificate that is used for a release, the named one or one that is made, is good;
/// or the line that says why not.
fn prove(alloc: Global, release: &Release, named: Option<Cert>) -> Result<(), Stop>
    ensures proved { IfOk result (λ _. IsSoundMap release.now
        × ((c : Cert) × IsTaken named c × IsGood release.now c)) }
    ensures refused { IfErr result (IsRefusedAs (IsUsedAnswer release.now
        (λ c. IsCheckAnswer release.now c (λ a. ⊥)) named)) }
{
    let cert = cert_for(alloc, release, named)?;
    match say_yes(alloc, release, &cert) {
        Ok(_) => Ok(()),
        Err(stop) => Err(stop),
    }
}

/// The release of what was read, where the certificate that is used is good.
fn proved_release(alloc: Global, read: ReadInputs) -> Result<Release, Stop>
    ensures release { IfOk result (λ r. (r ≡ read.release) × IsSoundMap r
        × ((c : Cert) × IsTaken read.cert c × IsGood r c)) }
    ensures refused { IfErr result (IsRefusedAs (IsUsedAnswer read.release
        (λ c. IsCheckAnswer read.release c (λ a. ⊥)) read.cert)) }
{
    let ReadInputs { release, cert } = read;
    match prove(alloc, &release, cert) {
        Ok(()) => Ok(release),
        Err(stop) => Err(stop),
    }
}

/// The release of three tables, if it is a sound map by the certificate that is named, or by one
/// that is made of it and let go again; or the line that refuses them.
pub fn checked_release(alloc: Global, inputs: Folder<Vec<u8>>) -> Result<Release, Stop>
    ensures release { IfOk result (IsProvedOf (inputs_of inputs)) }
    ensures refused { IfErr result (IsRefusedAs (IsRefusal (inputs_of inputs))) }
{
    let read = understand(alloc, inputs)?;
    proved_release(alloc, read)
}
