//! Writing all of an output.

ghost use Rattle.std.specs.Prelude.{◌≡◌, ◌≤◌, IfErr, IfNone, IfSome, OnOk, length, take};
ghost use Rattle.std.specs.Io.KnownBytes.{Appends, Keeps};
ghost use Rattle.lpis_run.specs.Streams.{Begins};
ghost use Rattle.lpis_run.specs.declared.failure.Failure.{Failure};

use crate::failure::{Failure, Name};
use std::io::{ErrorKind, Write};

/// Tries one write: Some is how many bytes it took, which are none where it was interrupted.
#[tactic(auto, using(crate::proofs::WriteLemmas::kept_appends_nothing))]
fn write_some<W: Write>(text: &[u8], out: &mut W) -> Option<usize>
    ensures within { IfSome result (λ n. n ≤ length text.now) }
    ensures taken { IfSome result (λ n. Appends (W.contents out.old) (W.contents out.new)
        (take n text.now)) }
    ensures refused { IfNone result (Keeps (W.contents out.old) (W.contents out.new)) }
{
    match out.write(text) {
        Ok(0) => None,
        Ok(count) => Some(count),
        Err(error) if error.kind() == ErrorKind::Interrupted => Some(0),
        Err(_) => None,
    }
}

/// Writes a text to an output. Where that fails, the output got a beginning of it.
#[tactic(auto, using(crate::proofs::WriteLemmas::begun_more, crate::proofs::WriteLemmas::begun_kept))]
pub fn write_text<W: Write>(text: &[u8], name: Name, out: &mut W) -> Result<(), Failure>
    ensures whole { OnOk result (Appends (W.contents out.old) (W.contents out.new) text.now) }
    ensures begun { IfErr result (λ failure. (failure ≡ Failure.Write name)
        × Begins (W.contents out.old) (W.contents out.new) text.now) }
{
    let mut written = 0;
    for _ in 0..u64::MAX {
        if written == text.len() {
            return Ok(());
        }
        let Some(count) = write_some(&text[written..], out) else {
            return Err(Failure::Write(name));
        };
        written += count;
    }
    Err(Failure::Write(name))
}
