//! Which identifiers a list has, and which more than once.

ghost use Rattle.std.specs.Prelude.{◌++◌, ◌∷◌, ℕ, List, [], OnOk, IfOk};
ghost use Rattle.lpis_lineage.specs.Kinds.{named_successors};
ghost use Rattle.lpis_lineage.specs.private.Tally.{IsTally};

use crate::id_set::IdSet;
use crate::row::Row;
use lpis_tables::Id;
use std::alloc::{AllocError, Global};

/// Which identifiers a list has, and which more than once.
#[derive(Drop)]
pub(crate) struct Tally {
    pub once: IdSet,
    pub twice: IdSet,
}

impl Tally {
    /// Of no identifiers.
    pub(crate) fn new(alloc: Global) -> Tally
        ensures { IsTally result [] }
    {
        Tally {
            once: IdSet::new(alloc),
            twice: IdSet::new(alloc),
        }
    }

    /// One more.
    pub(crate) fn note(&mut self, id: &Id) -> Result<(), AllocError>
        ensures { (ids : List (List ℕ)) → IsTally self.old ids
            → OnOk result (IsTally self.new (ids ++ id.now ∷ [])) }
    {
        let copy = id.copy()?;
        if self.once.contains(id) {
            self.twice.add(copy)?;
            Ok(())
        } else {
            self.once.add(copy)?;
            Ok(())
        }
    }
}

/// How often rows name their successors.
pub(crate) fn tally_successors(alloc: Global, rows: &[Row]) -> Result<Tally, AllocError>
    ensures { IfOk result (λ t. IsTally t (named_successors rows.now)) }
{
    let mut tally = Tally::new(alloc);
    for row in rows {
        match &row.new {
            None => {}
            Some(successor) => tally.note(successor)?,
        }
    }
    Ok(tally)
}
