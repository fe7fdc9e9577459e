//! The certificate that is used where none is named.

ghost use Rattle.std.specs.Prelude.{◌≡◌, IfErr, IfOk};
ghost use Rattle.lpis_run.specs.CheckAnswer.{IsUncut, IsUsedAnswer};
ghost use Rattle.lpis_run.specs.CutRefusals.{cut_refusal_text};
ghost use Rattle.lpis_run.specs.Inputs.{IsTaken};
ghost use Rattle.lpis_run.specs.Status.{refused};
ghost use Rattle.lpis_run.specs.Stops.{IsRefusedAs};

use crate::answer::Answer;
use crate::cut_line::print_refusal;
use crate::status::REFUSED;
use crate::stop::Stop;
use lpis_cert::Cert;
use lpis_cutter::{CutFault, Refusal, cut};
use lpis_release::Release;
use std::alloc::{AllocError, Global};

/// The line of a release that gets no certificate.
pub fn refuse_release(alloc: Global, refusal: &Refusal) -> Result<Answer, AllocError>
    ensures { IfOk result (λ a. (a.text.items ≡ cut_refusal_text refusal.now)
        × (a.status ≡ refused)) }
{
    let mut text = Vec::new(alloc);
    let printed = print_refusal(refusal, &mut text);
    Answer::of(text, REFUSED, printed)
}

/// A certificate that is made of a release, or the line of what the release is refused for. Nothing
/// is promised of the certificate, which is to be checked. All else that the cut took is let go.
fn made_cert(alloc: Global, release: &Release) -> Result<Cert, Stop>
    ensures { IfErr result (IsRefusedAs (IsUncut release.now)) }
{
    match cut(alloc, release) {
        Ok(cut) => Ok(cut.into_cert()?),
        Err(CutFault::Memory) => Err(Stop::Memory),
        Err(CutFault::Refused(refusal)) => Err(Stop::Refused(refuse_release(alloc, &refusal)?)),
    }
}

/// The certificate that is used for a release: the one that is named, or else one that is made of
/// it, which is to be checked all the same; or the line of what the release is refused for.
pub fn cert_for(alloc: Global, release: &Release, named: Option<Cert>) -> Result<Cert, Stop>
    ensures taken { IfOk result (IsTaken named) }
    ensures refused { IfErr result (IsRefusedAs (IsUsedAnswer release.now (λ c a. ⊥) named)) }
{
    match named {
        Some(cert) => Ok(cert),
        None => made_cert(alloc, release),
    }
}
