//! A certificate from its text.

ghost use Rattle.std.specs.Prelude.{◌≡◌, ◌+◌, ◌-◌, ◌<◌, ◌^◌, ◌∷◌, ◌++◌, [], ℕ, List, IfOk, IfErr};
ghost use Rattle.std.specs.Prelude.{MatchResult, drop, length};
ghost use Rattle.lpis_cert.specs.CertText.{PairsLine, content_lines};
ghost use Rattle.lpis_cert.specs.Versions.{first_line};
ghost use Rattle.lpis_cert.specs.Faults.{lines, lines_outcome, verdict, first_state, IsFirstFault};
ghost use Rattle.lpis_cert.specs.private.Taken.{FaultFrom, ReadsLines};
ghost use Rattle.lpis_cert.specs.Contents.{IsCertText, content_of};
ghost use Rattle.lpis_cert.specs.private.Drafts.{Opens, PairsCome, Whole, draft_lines, draft_state};

use crate::blocks::{finish, next_block};
use crate::cert::Cert;
use crate::draft::{Draft, Progress};
use crate::fault::{CertCode, CertFault};
use crate::kind::Stage;
use crate::rest::{Rest, front_line};
use crate::version::Version;
use lpis_memory::without_spare;
use std::alloc::{AllocError, Global};

/// The version that the first line names, and what comes after this line.
fn after_version(bytes: &[u8]) -> Result<(Version, Rest<'_>), CertFault>
    ensures { MatchResult result
        (λ x. (bytes.now ≡ first_line x.0 ++ (10 ∷ x.1.text.now))
        × (verdict bytes.now ≡ lines_outcome x.0 x.1.line first_state (lines x.1.text.now)))
        (λ e. IsFirstFault e bytes.now) }
{
    let start = Rest {
        text: bytes,
        line: 1,
    };
    let Some((line, after)) = front_line(start) else {
        return Err(CertFault::At {
            code: CertCode::Truncated,
            line: 1,
        });
    };
    match Version::named(line) {
        Some(version) => Ok((version, after)),
        None => Err(CertFault::At {
            code: CertCode::Version,
            line: 1,
        }),
    }
}

/// What has been read before the first block.
fn no_blocks(alloc: Global, version: Version) -> Draft
    ensures lines { draft_lines result ≡ [] }
    ensures state { draft_state result ≡ first_state }
    ensures version { result.version ≡ version }
{
    Draft {
        pieces: Vec::new(alloc),
        parcels: Vec::new(alloc),
        exact: Vec::new(alloc),
        stage: Stage::Pieces,
        triangles: 0,
        flats: 0,
        version,
        scratch: Vec::new(alloc),
    }
}

/// What stands before the pairs, how many these are, and what comes after the line that counts
/// them.
fn read_blocks(
    alloc: Global,
    version: Version,
    start: Rest<'_>,
) -> Result<(Draft, u32, Rest<'_>), CertFault>
    ensures ok { IfOk result (λ o. (before : List ℕ) × (m : ℕ) × PairsCome version
        start.entry.text.now start.entry.line o.0 o.1 before m o.2.text.now o.2.line) }
    ensures err { IfErr result
        (λ e. FaultFrom version e start.entry.line first_state start.entry.text.now) }
{
    let mut draft = no_blocks(alloc, version);
    let mut rest = start;
    'reading: loop {
        match next_block(alloc, &mut draft, rest)? {
            Progress::More(left) => rest = left,
            Progress::Pairs(count, after) => return Ok((draft, count, after)),
        }
    }
}

/// What stands before the pairs of a text, how many these are, and what comes after the line that
/// counts them.
fn opened(alloc: Global, bytes: &[u8]) -> Result<(Draft, u32, Rest<'_>), CertFault>
    ensures ok { IfOk result (λ o. Opens bytes.now o.0 o.1 o.2.text.now o.2.line) }
    ensures err { IfErr result (λ e. IsFirstFault e bytes.now) }
{
    let (version, blocks) = after_version(bytes)?;
    let read = read_blocks(alloc, version, blocks)?;
    Ok(read)
}

/// The certificate of a text, or the text's first fault.
fn read_text(alloc: Global, bytes: &[u8]) -> Result<Cert, CertFault>
    // A certificate is read from a text of it alone.
    ensures found { IfOk result (λ cert. IsCertText bytes.now cert) }
    // A fault is the first fault of the text.
    ensures fault { IfErr result (λ e. IsFirstFault e bytes.now) }
{
    let (draft, count, rest) = opened(alloc, bytes)?;
    finish(alloc, draft, count, rest)
}

/// The last bytes of a text alone, so many of them; the room of those before is let go.
fn last_part(mut text: Vec<u8>, left: usize) -> Result<Vec<u8>, AllocError>
    ensures { IfOk result (λ v. v.items ≡ drop (length text.items - left) text.items) }
{
    let front = text.len().saturating_sub(left);
    text.copy_within(front.., 0);
    text.truncate(text.len() - front);
    let part = without_spare(text)?;
    Ok(part)
}

/// The certificate of what was read before the pairs, and of the last bytes of a text.
fn finish_owned(
    alloc: Global,
    draft: Draft,
    count: u32,
    text: Vec<u8>,
    line: u64,
) -> Result<Cert, CertFault>
    requires { line + length text.items < 2 ^ 64 }
    ensures ok { IfOk result (λ cert. (before : List ℕ) (n : ℕ) → ReadsLines draft.version before n
        (PairsLine count ∷ []) text.items line
        → Whole draft.version (draft_lines draft) (content_lines (content_of cert)) before) }
    ensures err { IfErr result (λ e. (before : List ℕ) (n : ℕ) → ReadsLines draft.version before n
        (PairsLine count ∷ []) text.items line
        → FaultFrom draft.version e n (draft_state draft) before) }
{
    let rest = Rest {
        text: text.as_slice(),
        line,
    };
    finish(alloc, draft, count, rest)
}

/// The certificate of a text that is let go, or the text's first fault.
fn read_owned(alloc: Global, text: Vec<u8>) -> Result<Cert, CertFault>
    // A certificate is read from a text of it alone.
    ensures found { IfOk result (λ cert. IsCertText text.items cert) }
    // A fault is the first fault of the text.
    ensures fault { IfErr result (λ e. IsFirstFault e text.items) }
{
    let (draft, count, rest) = opened(alloc, text.as_slice())?;
    let (left, line) = (rest.text.len(), rest.line);
    let part = last_part(text, left)?;
    finish_owned(alloc, draft, count, part, line)
}

/// The certificate of a text of version 1 or 2, or the text's first fault.
pub fn read_cert(alloc: Global, bytes: &[u8]) -> Result<Cert, CertFault>
    // What is read is the certificate of which this is a text.
    ensures found { IfOk result (λ cert. IsCertText bytes.now cert) }
    // A certificate is read from each of its texts, unless memory runs out.
    ensures only { (cert : Cert) → IsCertText bytes.now cert
        → MatchResult result (λ read. read ≡ cert) (λ e. e ≡ CertFault.Memory) }
    // A fault is the first fault of the text.
    ensures fault { IfErr result (λ e. IsFirstFault e bytes.now) }
{
    read_text(alloc, bytes)
}

/// The same of a text that is let go: its blocks before its pairs are read, which are about as long
/// as these.
pub fn read_cert_of(alloc: Global, text: Vec<u8>) -> Result<Cert, CertFault>
    // What is read is the certificate of which this is a text.
    ensures found { IfOk result (λ cert. IsCertText text.items cert) }
    // A certificate is read from each of its texts, unless memory runs out.
    ensures only { (cert : Cert) → IsCertText text.items cert
        → MatchResult result (λ read. read ≡ cert) (λ e. e ≡ CertFault.Memory) }
    // A fault is the first fault of the text.
    ensures fault { IfErr result (λ e. IsFirstFault e text.items) }
{
    read_owned(alloc, text)
}
