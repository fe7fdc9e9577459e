//! The certificate of a release.

ghost use Rattle.std.specs.Prelude.{◌≡◌, ◌<◌, ◌⊎◌, IfOk, IsFalse, IsTrue, length, take};
ghost use Rattle.lpis_page.specs.Calls.{IsCutOf, IsUncutOr};
ghost use Rattle.lpis_run.specs.Status.{failed};

use crate::reply::{Reply, put};
use lpis_run::{Answer, Failure, Tables};
use lpis_run_check::run_cut;
use std::alloc::Global;

/// A certificate's text, or nothing, and the line that is printed.
#[derive(Drop)]
struct Cut {
    /// The certificate.
    cert: Vec<u8>,
    /// The line.
    line: Answer,
}

impl Cut {
    /// Hands over both texts. False is a room too small, and then both are left as they were.
    fn hand_over(
        &self,
        cert_room: &mut [u8],
        room: &mut [u8],
        cert_length: &mut usize,
        reply: &mut Reply,
    ) -> bool
        ensures cert_length { cert_length.new ≡ length self.now.cert.items }
        ensures length { reply.new.length ≡ length self.now.line.text.items }
        ensures status { IsTrue result → reply.new.status ≡ self.now.line.status }
        ensures unanswered { IsFalse result → reply.new.status ≡ failed }
        ensures cert { IsTrue result → take cert_length.new cert_room.new ≡ self.now.cert.items }
        ensures text { IsTrue result → take reply.new.length room.new ≡ self.now.line.text.items }
        ensures longer { IsFalse result → (length cert_room.old < cert_length.new)
            ⊎ (length room.old < reply.new.length) }
        ensures kept { IsFalse result → (cert_room.new ≡ cert_room.old) × (room.new ≡ room.old) }
        ensures no_certificate { cert_length.new ≡ 0 → cert_room.new ≡ cert_room.old }
    {
        *cert_length = self.cert.len();
        if self.cert.len() > cert_room.len() {
            return reply.longer(&self.line);
        }
        if !reply.hand_over(&self.line, room) {
            return false;
        }
        put(self.cert.as_slice(), cert_room)
    }
}

/// What the cut of three tables gives.
fn cut_of(alloc: Global, parcels: &[u8], covers: &[u8], classes: &[u8]) -> Result<Cut, Failure>
    ensures { IfOk result (λ c. IsCutOf parcels.now covers.now classes.now c.line.status
        c.cert.items c.line.text.items) }
{
    let mut tables = Tables {
        parcels,
        covers,
        classes,
    };
    let mut cert = Vec::new(alloc);
    let mut text = Vec::new(alloc);
    let status = run_cut(alloc, &mut tables, &mut cert, &mut text)?;
    Ok(Cut {
        cert,
        line: Answer { text, status },
    })
}

/// Cuts the release of three tables: the certificate goes into the first room, and is empty where
/// there is none, the line into the other.
#[unsafe(no_mangle)]
pub extern "C" fn lpis_cut(
    alloc: Global,
    parcels: &[u8],
    covers: &[u8],
    classes: &[u8],
    cert_room: &mut [u8],
    room: &mut [u8],
    cert_length: &mut usize,
    reply: &mut Reply,
) -> bool
    ensures answer { IsTrue result → IsCutOf parcels.now covers.now classes.now reply.new.status
        (take cert_length.new cert_room.new) (take reply.new.length room.new) }
    ensures needed { IsFalse result → IsUncutOr (IsCutOf parcels.now covers.now classes.now)
        (length cert_room.old) (length room.old) cert_length.new reply.new.length }
    ensures unanswered { IsFalse result → reply.new.status ≡ failed }
    ensures kept { IsFalse result → (cert_room.new ≡ cert_room.old) × (room.new ≡ room.old) }
    ensures no_certificate { cert_length.new ≡ 0 → cert_room.new ≡ cert_room.old }
{
    match cut_of(alloc, parcels, covers, classes) {
        Ok(cut) => cut.hand_over(cert_room, room, cert_length, reply),
        Err(_) => {
            *cert_length = 0;
            reply.none()
        }
    }
}
