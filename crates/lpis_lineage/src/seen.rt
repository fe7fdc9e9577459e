//! The rows that a check has seen.

ghost use Rattle.std.specs.Prelude.{◌≡◌, ◌++◌, ◌∷◌, List, [], OnOk, Some, None};
ghost use Rattle.std.specs.List.{list_any};
ghost use Rattle.lpis_lineage.specs.declared.row.Row.{Row};
ghost use Rattle.lpis_lineage.specs.Lineage.{same_row, is_row_of};
ghost use Rattle.lpis_lineage.specs.Faults.{fault_before, clashes, ReportsFirstOf};
ghost use Rattle.lpis_lineage.specs.declared.fault.LineageCode.TheVariants as code;
ghost use Rattle.lpis_lineage.specs.declared.fault.LineageFault.TheVariants.{OfRow};
ghost use Rattle.lpis_lineage.specs.private.Seen.{IsSeen};

use crate::fault::{LineageCode, LineageFault};
use crate::id_set::IdSet;
use crate::row::Row;
use lpis_tables::Id;
use std::alloc::Global;
use std::collections::BTreeSet;

/// What is known of the rows seen so far: who is ended, who has a successor, and who which.
#[derive(Drop)]
pub(crate) struct Seen {
    pub ended: IdSet,
    pub continued: IdSet,
    pub named_successors: BTreeSet<(Id, Id)>,
}

impl Seen {
    /// No rows.
    pub(crate) fn new(alloc: Global) -> Seen
        ensures { IsSeen result [] }
    {
        Seen {
            ended: IdSet::new(alloc),
            continued: IdSet::new(alloc),
            named_successors: BTreeSet::new(alloc),
        }
    }

    /// Looks at an ending, and keeps it.
    pub(crate) fn end(&mut self, row: &Row, number: usize) -> Result<(), LineageFault>
        requires { row.now.new ≡ None }
        ensures tells { (before : List Row) → IsSeen self.old before
            → ReportsFirstOf
            (fault_before (list_any (same_row row.now) before) (OfRow code.DoubledRow number)
            (fault_before (list_any (clashes row.now) before)
            (OfRow code.EndingBesideSuccessor number) [])) result }
        ensures seen { (before : List Row) → IsSeen self.old before
            → OnOk result (IsSeen self.new (before ++ row.now ∷ [])) }
    {
        if self.ended.contains(&row.old) {
            return Err(LineageFault::OfRow(LineageCode::DoubledRow, number));
        }
        if self.continued.contains(&row.old) {
            return Err(LineageFault::OfRow(LineageCode::EndingBesideSuccessor, number));
        }
        let old = row.old.copy()?;
        self.ended.add(old)?;
        Ok(())
    }

    /// Looks at a row with this successor, and keeps it.
    pub(crate) fn continue_in(
        &mut self,
        row: &Row,
        successor: &Id,
        number: usize,
    ) -> Result<(), LineageFault>
        requires { row.now.new ≡ Some successor.now }
        ensures tells { (before : List Row) → IsSeen self.old before
            → ReportsFirstOf
            (fault_before (list_any (same_row row.now) before) (OfRow code.DoubledRow number)
            (fault_before (list_any (clashes row.now) before)
            (OfRow code.EndingBesideSuccessor number) [])) result }
        ensures seen { (before : List Row) → IsSeen self.old before
            → OnOk result (IsSeen self.new (before ++ row.now ∷ [])) }
    {
        let old = row.old.copy()?;
        let new = successor.copy()?;
        let is_new = self.named_successors.insert((old, new))?;
        if !is_new {
            return Err(LineageFault::OfRow(LineageCode::DoubledRow, number));
        }
        if self.ended.contains(&row.old) {
            return Err(LineageFault::OfRow(LineageCode::EndingBesideSuccessor, number));
        }
        let old = row.old.copy()?;
        self.continued.add(old)?;
        Ok(())
    }

    /// Whether some row has this old identifier.
    pub(crate) fn has_row(&self, id: &Id) -> bool
        ensures { (rows : List Row) → IsSeen self.now rows
            → result ≡ list_any (is_row_of id.now) rows }
    {
        self.ended.contains(id) || self.continued.contains(id)
    }
}
