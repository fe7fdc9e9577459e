//! The line of a certificate's counts.

ghost use Rattle.std.specs.Prelude.{◌≡◌, OnOk, length, sum_by};
ghost use Rattle.std.specs.Io.KnownBytes.{Appends};
ghost use Rattle.lpis_run_check.specs.CutAnswer.{counts_text};

use lpis_cert::Cert;
use lpis_run::PrintFault;
use std::io::Write;

/// How many triangles a certificate has.
fn count_triangles(cert: &Cert) -> usize
    ensures { result ≡ sum_by (λ p. length p.triangles) cert.now.pieces }
{
    let mut count = 0;
    for piece in cert.pieces.as_slice() {
        count += piece.triangles.as_slice().len();
    }
    count
}

/// Writes the line of a certificate's counts.
pub fn print_counts<W: Write>(cert: &Cert, out: &mut W) -> Result<(), PrintFault>
    ensures { OnOk result (Appends (W.contents out.old) (W.contents out.new)
        (counts_text cert.now)) }
{
    let triangles = count_triangles(cert);
    let pairs = cert.pairs.as_slice().len();
    write!(out, "triangles {triangles} pairs {pairs}\n")?;
    Ok(())
}
