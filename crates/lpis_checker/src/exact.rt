//! The check of exact blocks: whether parts make up their wholes.

ghost use Rattle.std.specs.Prelude.{◌≡◌, All, IfErr, IfOk, OnOk};
ghost use Rattle.lpis_edge_sums.specs.Making.{TurnsAsParts};
ghost use Rattle.lpis_checker.specs.ExactBlocks.{BlockHolds, ReportsExact, ShowExact};
ghost use Rattle.lpis_checker.specs.ExactBlocks.{exact_code_text};
ghost use Rattle.lpis_checker.specs.private.ExactSearches.{IsFaultOfBlock};
ghost use Rattle.lpis_checker.specs.declared.exact.ExactFault.TheVariants.{Memory};

use crate::blocks::first_failing_block;
use lpis_cert::{Cert, ExactBlock};
use lpis_memory::Sequence;
use lpis_rings::Polygon;
use lpis_tables::Id;
use std::alloc::{AllocError, Global};
use thiserror::Error;

/// What an exact block is to show: that parts make up a whole, of a split, or of a merge.
#[derive(Debug, Drop)]
pub struct ExactPart {
    pub merge: bool,
    pub id: Id,
    pub whole: Polygon,
    pub parts: Sequence<Polygon>,
}

/// What exact blocks meet, in the order in which it is reported where they do not.
#[derive(Clone, Copy, Debug, PartialEq, Eq)]
pub enum ExactCondition {
    /// The blocks have the kinds and identifiers of the wanted parts, in order.
    Names,
    /// Each flat is three different points of one line.
    Flats,
    /// Each corner is a point of the rings of the whole or of its parts.
    Corners,
    /// The edges of the whole have the net counts of those of its parts and of the flats together.
    Edges,
}

impl ExactCondition {
    /// The two characters that stand in a refusal for a condition that fails: `6a` to `6d`.
    pub fn as_str(self) -> &'static str
        ensures { result.now ≡ exact_code_text self }
    {
        match self {
            ExactCondition::Names => "6a",
            ExactCondition::Flats => "6b",
            ExactCondition::Corners => "6c",
            ExactCondition::Edges => "6d",
        }
    }
}

/// A condition that fails, and the index of the block.
#[derive(Clone, Copy, Debug)]
pub(crate) struct FailingBlock {
    pub condition: ExactCondition,
    pub index: usize,
}

/// Why exact blocks do not show that the wholes are made up.
#[derive(Debug, Drop, Error)]
pub enum ExactFault {
    /// Memory ran out.
    #[error("out of memory")]
    Memory,
    /// The condition of the lowest code that fails, and the first block at which it does.
    #[error("exact {} {}", .code.as_str(), .id.as_str())]
    At { code: ExactCondition, id: Id },
}

impl From<AllocError> for ExactFault {
    ghost from_gives = { λ _ e. e ≡ Memory };

    fn from(_e: AllocError) -> ExactFault {
        ExactFault::Memory
    }
}

/// What is reported of a condition that fails: it, and the identifier of the block, or the wanted
/// one where the blocks have ended.
fn reported_block(
    blocks: &[ExactBlock],
    parts: &[ExactPart],
    found: FailingBlock,
) -> Result<ExactFault, AllocError>
    requires { BlockHolds blocks.now parts.now found.condition found.index → ⊥ }
    ensures { IfOk result (IsFaultOfBlock blocks.now parts.now found) }
{
    let id = match (blocks.get(found.index), parts.get(found.index)) {
        (Some(block), _) => block.id.copy()?,
        (None, Some(part)) => part.id.copy()?,
        (None, None) => unreachable!(),
    };
    Ok(ExactFault::At {
        code: found.condition,
        id,
    })
}

/// Checks a certificate's exact blocks against what they are to show: Ok exactly where their kinds
/// and identifiers are those of the parts, in order, each flat is three different points of one
/// line, each corner is a point of the rings of the whole or of its parts, and the edges of each
/// whole have the net counts of those of its parts and of the flats together. Else reports the
/// lowest code that fails, and the first block at which it does, or the wanted one where the blocks
/// have ended.
///
/// With Ok each whole turns round each rational point as often as its parts together.
pub fn check_exact(alloc: Global, cert: &Cert, parts: &[ExactPart]) -> Result<(), ExactFault>
    ensures shows { OnOk result (ShowExact cert.now.exact parts.now) }
    ensures turns { OnOk result (All (λ x. TurnsAsParts x.whole x.parts) parts.now) }
    ensures fault { IfErr result (ReportsExact cert.now.exact parts.now) }
{
    let blocks = cert.exact.as_slice();
    match first_failing_block(alloc, blocks, parts)? {
        Some(found) => Err(reported_block(blocks, parts, found)?),
        None => Ok(()),
    }
}
