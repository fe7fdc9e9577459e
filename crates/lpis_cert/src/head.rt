//! The lines that begin blocks.

ghost use Rattle.std.specs.Prelude.{◌≡◌, ◌∷◌, [], true, IfOk, IfErr, option_map};
ghost use Rattle.lpis_tables.specs.Ids.{is_id};
ghost use Rattle.lpis_cert.specs.CertText.{PieceLine, ParcelLine, ExactLine, PairsLine};
ghost use Rattle.lpis_cert.specs.Fitting.{LineFits};
ghost use Rattle.lpis_cert.specs.LineKinds.{line_kind};
ghost use Rattle.lpis_cert.specs.Reading.{piece_line, parcel_block_line, exact_line, pairs_line};
ghost use Rattle.lpis_cert.specs.Reading.{can_stand};
ghost use Rattle.lpis_cert.specs.private.Taken.{ReadsLines, LineFault};
ghost use Rattle.lpis_cert.specs.private.Drafts.{head_line, stage_after};
ghost use Rattle.lpis_cert.specs.declared.kind.Expected.TheVariants.{Block};
ghost use Rattle.lpis_cert.specs.declared.fault.CertFault.TheVariants.{At};
ghost use Rattle.lpis_cert.specs.declared.fault.CertCode.TheVariants as code;

use crate::fault::{CertCode, CertFault};
use crate::fields::{GREATEST_COUNT, next_number};
use crate::form::merge_of;
use crate::kind::{Expected, Kind, Stage};
use crate::lines::placed_line;
use crate::rest::Rest;
use crate::version::Version;
use crate::words::Words;
use lpis_tables::Id;
use std::alloc::{AllocError, Global};

/// What begins a block.
#[derive(Drop)]
pub(crate) enum Head {
    Piece(Id, u32, u32),
    Flats(Owner, Id, u32),
    Pairs(u32),
}

/// Whose flats a block of flats alone has.
#[derive(Clone, Copy, Debug, PartialEq, Eq)]
pub(crate) enum Owner {
    /// A parcel's.
    Parcel,
    /// An exact merge's, or an exact split's.
    Exact { merge: bool },
}

impl Owner {
    /// Which blocks can begin after it.
    pub(crate) fn stage(self) -> Stage
        ensures { result ≡ stage_after self }
    {
        match self {
            Owner::Parcel => Stage::Parcels,
            Owner::Exact { .. } => Stage::Exacts,
        }
    }
}

#[tactic(auto, unfolding(crate::specs::Reading::piece_line))]
fn piece_fields(mut words: Words<'_>) -> Option<(&[u8], u32, u32)>
    ensures { piece_line words.entry ≡ option_map (λ x. PieceLine x.0.now x.1 x.2) result }
{
    let id = words.next()?;
    let triangles = next_number(&mut words, GREATEST_COUNT)?;
    let flats = next_number(&mut words, GREATEST_COUNT)?;
    match words.next() {
        None => Some((id, triangles as u32, flats as u32)),
        Some(_) => None,
    }
}

#[tactic(auto, unfolding(crate::specs::Reading::parcel_block_line))]
fn parcel_fields(mut words: Words<'_>) -> Option<(&[u8], u32)>
    ensures { parcel_block_line words.entry ≡ option_map (λ x. ParcelLine x.0.now x.1) result }
{
    let id = words.next()?;
    let flats = next_number(&mut words, GREATEST_COUNT)?;
    match words.next() {
        None => Some((id, flats as u32)),
        Some(_) => None,
    }
}

#[tactic(auto, unfolding(crate::specs::Reading::exact_line))]
fn exact_fields(mut words: Words<'_>) -> Option<(bool, &[u8], u32)>
    ensures { exact_line words.entry ≡ option_map (λ x. ExactLine x.0 x.1.now x.2) result }
{
    let side = words.next()?;
    let merge = merge_of(side)?;
    let id = words.next()?;
    let flats = next_number(&mut words, GREATEST_COUNT)?;
    match words.next() {
        None => Some((merge, id, flats as u32)),
        Some(_) => None,
    }
}

#[tactic(auto, unfolding(crate::specs::Reading::pairs_line))]
fn pairs_fields(mut words: Words<'_>) -> Option<u32>
    ensures { pairs_line words.entry ≡ option_map (λ n. PairsLine n) result }
{
    let count = next_number(&mut words, GREATEST_COUNT)?;
    match words.next() {
        None => Some(count as u32),
        Some(_) => None,
    }
}

fn named(alloc: Global, word: &[u8]) -> Result<Id, AllocError>
    requires { is_id word.now ≡ true }
    ensures { IfOk result (λ id. id ≡ word.now) }
{
    match Id::read(alloc, word)? {
        Some(id) => Ok(id),
        None => unreachable!(),
    }
}

fn no_number(line: u64) -> CertFault
    ensures { result ≡ At code.Number line }
{
    CertFault::At {
        code: CertCode::Number,
        line,
    }
}

/// The line that begins a block, or the pairs.
pub(crate) fn head_at(
    alloc: Global,
    version: Version,
    stage: Stage,
    rest: Rest<'_>,
) -> Result<(Head, Rest<'_>), CertFault>
    ensures ok { IfOk result (λ x. ReadsLines version rest.entry.text.now rest.entry.line
        (head_line x.0 ∷ []) x.1.text.now x.1.line) }
    ensures fits { IfOk result (λ x. LineFits version (head_line x.0)) }
    ensures stands { IfOk result (λ x. can_stand (Block stage) (line_kind (head_line x.0)) ≡ true) }
    ensures err { IfErr result
        (λ e. LineFault version e rest.entry.line (Block stage) rest.entry.text.now) }
{
    let (kind, words, after) = placed_line(version, Expected::Block(stage), rest)?;
    let line = rest.line;
    match kind {
        Kind::Piece => match piece_fields(words) {
            Some((id, triangles, flats)) => {
                Ok((Head::Piece(named(alloc, id)?, triangles, flats), after))
            }
            None => Err(no_number(line)),
        },
        Kind::Parcel => match parcel_fields(words) {
            Some((id, flats)) => {
                let owner = Owner::Parcel;
                Ok((Head::Flats(owner, named(alloc, id)?, flats), after))
            }
            None => Err(no_number(line)),
        },
        Kind::Exact => match exact_fields(words) {
            Some((merge, id, flats)) => {
                let owner = Owner::Exact { merge };
                Ok((Head::Flats(owner, named(alloc, id)?, flats), after))
            }
            None => Err(no_number(line)),
        },
        Kind::Pairs => match pairs_fields(words) {
            Some(count) => Ok((Head::Pairs(count), after)),
            None => Err(no_number(line)),
        },
        Kind::Triangle | Kind::Flat | Kind::Pair | Kind::End => unreachable!(),
    }
}
