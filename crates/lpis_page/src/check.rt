//! The check of a release.

ghost use Rattle.std.specs.Prelude.{◌≡◌, IfOk, IsFalse, IsTrue, length, take};
ghost use Rattle.lpis_page.specs.Calls.{IsCheckOf, IsUnansweredOr, inputs};
ghost use Rattle.lpis_run.specs.Status.{failed};

use crate::reply::Reply;
use lpis_run::{Answer, Failure, Folder, Tables};
use lpis_run_check::run_check;
use std::alloc::Global;

/// The answer to the bytes of three tables and a certificate.
fn answer_to(
    alloc: Global,
    parcels: &[u8],
    covers: &[u8],
    classes: &[u8],
    cert: &[u8],
) -> Result<Answer, Failure>
    ensures { IfOk result (λ a. IsCheckOf (inputs parcels.now covers.now classes.now cert.now)
        a.status a.text.items) }
{
    let mut folder = Folder {
        tables: Tables {
            parcels,
            covers,
            classes,
        },
        cert: Some(cert),
    };
    let mut text = Vec::new(alloc);
    let status = run_check(alloc, &mut folder, &mut text)?;
    Ok(Answer { text, status })
}

/// Checks the release of three tables against a certificate.
#[unsafe(no_mangle)]
pub extern "C" fn lpis_check(
    alloc: Global,
    parcels: &[u8],
    covers: &[u8],
    classes: &[u8],
    cert: &[u8],
    room: &mut [u8],
    reply: &mut Reply,
) -> bool
    ensures answer { IsTrue result → IsCheckOf (inputs parcels.now covers.now classes.now cert.now)
        reply.new.status (take reply.new.length room.new) }
    ensures needed { IsFalse result → IsUnansweredOr
        (IsCheckOf (inputs parcels.now covers.now classes.now cert.now)) (length room.old)
        reply.new.length }
    ensures unanswered { IsFalse result → reply.new.status ≡ failed }
    ensures kept { IsFalse result → room.new ≡ room.old }
{
    match answer_to(alloc, parcels, covers, classes, cert) {
        Ok(answer) => reply.hand_over(&answer, room),
        Err(_) => reply.none(),
    }
}
