//! What a release changes, with all that adding it takes.

ghost use Rattle.std.specs.Prelude.{◌≡◌, [], IfOk};
ghost use Rattle.lpis_lineage.specs.Faults.{faults};
ghost use Rattle.lpis_lineage.specs.Steps.{IsStep};

use crate::change::Change;
use crate::history::History;
use crate::id_set::IdSet;
use crate::row::Row;
use lpis_tables::Id;
use std::alloc::{AllocError, Global};

/// What a release changes in the history that it may follow, with all that adding it takes.
#[derive(Drop)]
pub struct Step {
    /// The release's identifiers.
    pub live: IdSet,
    /// What became of those of the history's last release.
    pub change: Change,
    /// Those that no release of the history holds, ascending by bytes.
    pub fresh: Vec<Id>,
}

impl Step {
    /// The step to a release without a fault. Those of its identifiers that the last release lacks
    /// are fresh, since none of them was used before.
    pub(crate) fn of(
        alloc: Global,
        history: &History,
        live: IdSet,
        rows: &[Row],
    ) -> Result<Step, AllocError>
        requires clean { faults history.now live rows.now ≡ [] }
        ensures { IfOk result (λ s. IsStep history.now live rows.now s.live s.change s.fresh.items) }
    {
        let last = history.last_live();
        let change = Change::of(alloc, last, &live, rows)?;
        let fresh = last.outside(alloc, &live)?;
        Ok(Step {
            live,
            change,
            fresh,
        })
    }
}
