//! What a run that writes a certificate has decided.

ghost use Rattle.std.specs.Prelude.{◌≡◌, IfErr, IfOk, None, OnOk, Some};
ghost use Rattle.lpis_cert.specs.Contents.{cert_text};
ghost use Rattle.lpis_run.specs.Outputs.{BreaksOff, Gets, GetsPart, Writes, held, outputs_of};
ghost use Rattle.lpis_run.specs.Outputs.{outputs_with, writer};
ghost use Rattle.lpis_run.specs.declared.failure.Failure.{Failure};
ghost use Rattle.lpis_run.specs.declared.failure.Name.{Name};

use crate::answer::Answer;
use crate::failure::{Failure, Name};
use crate::outputs::write_text;
use lpis_cert::{Cert, append_cert};
use std::alloc::{AllocError, Global};
use std::io::Write;

/// The text of the certificate that is written, if there is one, and what is printed. Both are
/// known before anything is written.
#[derive(Drop)]
pub struct Outcome {
    /// The certificate's text.
    pub cert: Option<Vec<u8>>,
    /// What is printed.
    pub printed: Answer,
}

/// The text of a certificate.
fn cert_text_of(alloc: Global, cert: &Cert) -> Result<Vec<u8>, AllocError>
    ensures { IfOk result (λ v. v.items ≡ cert_text cert.now) }
{
    let mut text = Vec::new(alloc);
    append_cert(cert, &mut text)?;
    Ok(text)
}

impl Outcome {
    /// What is printed, and no certificate.
    pub fn without_cert(printed: Answer) -> Outcome
        ensures { outputs_of result ≡ outputs_with None printed }
    {
        Outcome {
            cert: None,
            printed,
        }
    }

    /// A certificate, and what is printed.
    pub fn with_cert(alloc: Global, cert: &Cert, printed: Answer) -> Result<Outcome, AllocError>
        ensures { IfOk result (λ o. outputs_of o
            ≡ outputs_with (Some (cert_text cert.now)) printed) }
    {
        let text = cert_text_of(alloc, cert)?;
        Ok(Outcome {
            cert: Some(text),
            printed,
        })
    }

    /// Writes the certificate's text, if there is one.
    fn write_cert_to<E: Write>(&self, cert_out: &mut E) -> Result<(), Failure>
        ensures whole { OnOk result (Gets (writer E.contents cert_out.old)
            (writer E.contents cert_out.new) (outputs_of self.now).cert) }
        ensures part { IfErr result (λ failure. (failure ≡ Failure.Write Name.Cert)
            × GetsPart (writer E.contents cert_out.old) (writer E.contents cert_out.new)
            (outputs_of self.now).cert) }
    {
        match &self.cert {
            Some(text) => write_text(text.as_slice(), Name::Cert, cert_out),
            None => Ok(()),
        }
    }

    /// Writes the certificate's text to its file, if there is one, and then what is printed. Where
    /// there is no text, no write is asked of `cert_out`, which stays the same. Ok is the status.
    pub fn write_to<E: Write, W: Write>(&self, cert_out: &mut E, out: &mut W) -> Result<u8, Failure>
        ensures answer { IfOk result (λ status. Writes (outputs_of self.now) status
            (held (writer E.contents cert_out.old) (W.contents out.old))
            (held (writer E.contents cert_out.new) (W.contents out.new))) }
        ensures failure { IfErr result (λ failure. BreaksOff (outputs_of self.now) failure
            (held (writer E.contents cert_out.old) (W.contents out.old))
            (held (writer E.contents cert_out.new) (W.contents out.new))) }
    {
        self.write_cert_to(cert_out)?;
        self.printed.write_to(out)
    }
}
