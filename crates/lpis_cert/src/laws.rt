//! Laws of the text alone.

ghost use Rattle.std.specs.Prelude.{◌≡◌, ◌≤◌, ◌<◌, ◌++◌, ◌↔◌, ℕ, ◌+◌, List, length, Some, Ok, Err};
ghost use Rattle.std.specs.Prelude.{true};
ghost use Rattle.std.specs.Fmt.{decimal};
ghost use Rattle.lpis_cert.specs.Limits.{number_margin};
ghost use Rattle.lpis_cert.specs.Versions.{written};
ghost use Rattle.lpis_cert.specs.CertText.{content_lines, CertLine, spelling};
ghost use Rattle.lpis_cert.specs.Fitting.{LineFits};
ghost use Rattle.lpis_cert.specs.Contents.{cert_text, content_of, IsCertText, IsTextOfCert};
ghost use Rattle.lpis_cert.specs.Reading.{cert_number, read_line, can_stand};
ghost use Rattle.lpis_cert.specs.LineKinds.{line_kind};
ghost use Rattle.lpis_cert.specs.Faults.{lines, verdict};
ghost use Rattle.lpis_cert.specs.declared.cert.Cert.{Cert};
ghost use Rattle.lpis_cert.specs.declared.version.Version.{Version};
ghost use Rattle.lpis_cert.specs.declared.kind.Expected.{Expected};
ghost use Rattle.lpis_cert.specs.declared.fault.CertCode.TheVariants as code;

/// A certificate has one text of version 2.
pub fn one_text_a_value()
    ensures { (c : Cert) (text : List ℕ) → IsTextOfCert written c text ↔ (text ≡ cert_text c) }
{}

/// Two certificates have no text in common, of whatever versions.
pub fn one_value_a_text()
    ensures { (text : List ℕ) (c d : Cert) → IsCertText text c → IsCertText text d → c ≡ d }
{}

/// A text of a certificate has no fault.
pub fn texts_have_no_fault()
    ensures { (c : Cert) (text : List ℕ) → IsCertText text c
        → verdict text ≡ Ok (2 + length (content_lines (content_of c))) }
{}

/// A text without a fault is a certificate's: a text is refused for its fault, or it has a
/// certificate.
pub fn texts_without_fault()
    ensures { (text : List ℕ) (after : ℕ) → verdict text ≡ Ok after
        → (c : Cert) × IsCertText text c }
{}

/// A text without a fault that was cut off lacks its next line, or that line's end.
pub fn cut_texts()
    ensures { (front back : List ℕ) (after : ℕ) → verdict (front ++ back) ≡ Ok after
        → 0 < length back → verdict front ≡ Err (code.Truncated, length (lines front)) }
{}

/// A line that can stand is read exactly where it is spelled, in each version.
pub fn spelled_lines()
    ensures again { (v : Version) (e : Expected) (l : CertLine) → LineFits v l
        → can_stand e (line_kind l) ≡ true → read_line v e (spelling v l) ≡ Ok l }
    ensures takes { (v : Version) (e : Expected) (line : List ℕ) (l : CertLine)
        → read_line v e line ≡ Ok l → line ≡ spelling v l }
{}

/// A number has one spelling.
pub fn canonical_numbers()
    ensures { (limit : ℕ) (w : List ℕ) (n : ℕ) → limit ≤ number_margin
        → (cert_number limit w ≡ Some n)
        ↔ ((w ≡ decimal n) × (n ≤ limit)) }
{}
