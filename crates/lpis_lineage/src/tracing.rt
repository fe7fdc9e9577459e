//! Following identifiers through the years.

ghost use Rattle.std.specs.Prelude.{◌≡◌, ◌++◌, ◌∷◌, ◌≤◌, ◌<◌, ◌==◌, ◌||◌, ℕ, List, []};
ghost use Rattle.std.specs.Prelude.{OnOk, IfOk, cond, length, Option};
ghost use Rattle.std.specs.HashMap.{get};
ghost use Rattle.std.specs.Int.{bit_at};
ghost use Rattle.lpis_tables.specs.Ids.{same_id};
ghost use Rattle.lpis_lineage.specs.declared.row.Row.{Row};
ghost use Rattle.lpis_lineage.specs.Descendants.{all_rows};
ghost use Rattle.lpis_lineage.specs.Order.{IsAscending};
ghost use Rattle.lpis_lineage.specs.Tracings.{AreTraced, most_asked, reached_by};
ghost use Rattle.lpis_lineage.specs.private.Following.{AllReach, IsFreshRow, AreFreshRows};
ghost use Rattle.lpis_lineage.specs.private.Following.{askers_in, has_asker, with_askers};

use crate::history::History;
use crate::id_set::IdSet;
use crate::row::Row;
use lpis_tables::Id;
use std::alloc::{AllocError, Global};
use std::collections::HashMap;
use std::marker::Model;

/// The most identifiers that one walk over the rows follows.
pub const MOST_ASKED: usize = 128;

/// The live identifiers that chains of rows reach from those asked, ascending, each with its
/// askers: a bit each, by their places among those asked.
#[derive(Drop)]
pub struct Tracing {
    found: Vec<(Id, u128)>,
}

impl Model for Tracing {
    ghost use Rattle.std.specs.Prelude.{ℕ, List};

    ghost Value = { List (List ℕ × ℕ) };

    ghost view = { λ t. t.found.items };
}

impl Tracing {
    /// Those that the asker at this place reaches, ascending by bytes, each once.
    pub fn of(&self, alloc: Global, asker: usize) -> Result<Vec<Id>, AllocError>
        requires { asker < most_asked }
        ensures { IfOk result (λ v. v.items ≡ reached_by asker self.now) }
    {
        let mut ids = Vec::new(alloc);
        for pair in &self.found {
            if (pair.1 >> asker) & 1 == 1 {
                let copy = pair.0.copy()?;
                ids.push(copy)?;
            }
        }
        Ok(ids)
    }
}

/// Who reaches an identifier.
fn askers_of(reached: &HashMap<Id, u128>, id: &Id) -> u128
    ensures { result ≡ askers_in (get same_id reached.now id.now) }
{
    match reached.get(id).copied() {
        Some(askers) => askers,
        None => 0,
    }
}

/// Adds askers to those who reach an identifier.
fn add_askers(reached: &mut HashMap<Id, u128>, id: &Id, coming: u128) -> Result<(), AllocError>
    ensures { OnOk result ((q : List ℕ) → (j : ℕ) → has_asker j (get same_id reached.new q)
        ≡ cond (same_id id.now q) (has_asker j (get same_id reached.old q) || (bit_at coming j == 1))
        (has_asker j (get same_id reached.old q))) }
{
    let known = askers_of(reached, id);
    let all = known | coming;
    if all != known {
        let id = id.copy()?;
        reached.insert(id, all)?;
    }
    Ok(())
}

/// Adds those who reach the row's old identifier to those who reach its successor.
fn follow_row(reached: &mut HashMap<Id, u128>, row: &Row) -> Result<(), AllocError>
    ensures { (before : List Row) → (asked : List (Option (List ℕ)))
        → AllReach (get same_id reached.old) before asked → IsFreshRow before row.now
        → OnOk result (AllReach (get same_id reached.new) (before ++ row.now ∷ []) asked) }
{
    match &row.new {
        None => Ok(()),
        Some(successor) => {
            let coming = askers_of(reached, &row.old);
            if coming == 0 {
                Ok(())
            } else {
                add_askers(reached, successor, coming)?;
                Ok(())
            }
        }
    }
}

/// Follows the rows of a release.
fn follow(reached: &mut HashMap<Id, u128>, rows: &[Row]) -> Result<(), AllocError>
    ensures { (before : List Row) → (asked : List (Option (List ℕ)))
        → AllReach (get same_id reached.old) before asked → AreFreshRows before rows.now
        → OnOk result (AllReach (get same_id reached.new) (before ++ rows.now) asked) }
{
    for row in rows {
        follow_row(reached, row)?;
    }
    Ok(())
}

/// Those asked, each reached by its own place among them.
fn begin(alloc: Global, asked: &[Option<Id>]) -> Result<HashMap<Id, u128>, AllocError>
    requires { length asked.now ≤ most_asked }
    ensures { IfOk result (λ m. AllReach (get same_id m) [] asked.now) }
{
    let mut reached = HashMap::new(alloc);
    for place in 0..asked.len() {
        if let Some(id) = &asked[place] {
            add_askers(&mut reached, id, 1 << place)?;
        }
    }
    Ok(reached)
}

/// Whom chains of rows reach, with who reaches them.
fn reached(
    alloc: Global,
    history: &History,
    asked: &[Option<Id>],
) -> Result<HashMap<Id, u128>, AllocError>
    requires { length asked.now ≤ most_asked }
    ensures { IfOk result (λ m. AllReach (get same_id m) (all_rows history.now) asked.now) }
{
    let mut reached = begin(alloc, asked)?;
    for entry in history.releases() {
        follow(&mut reached, entry.rows.as_slice())?;
    }
    Ok(reached)
}

/// Those of these identifiers that are reached, with who reaches them.
fn with_all_askers(
    alloc: Global,
    ids: &IdSet,
    reached: &HashMap<Id, u128>,
) -> Result<Vec<(Id, u128)>, AllocError>
    ensures list { IfOk result (λ v. v.items ≡ with_askers (get same_id reached.now) ids.now) }
    ensures ascending { IsAscending ids.now }
{
    let mut found = Vec::new(alloc);
    for id in ids.iter() {
        if let Some(askers) = reached.get(id).copied() {
            let copy = id.copy()?;
            found.push((copy, askers))?;
        }
    }
    Ok(found)
}

/// The live descendants of the identifiers asked: the identifiers of the last release at which a
/// chain of rows from old to new arrives from one, itself among them where it is live. Each row is
/// walked once for all that are asked. `None` stands where nobody is asked at a place.
pub fn descendants(
    alloc: Global,
    history: &History,
    asked: &[Option<Id>],
) -> Result<Tracing, AllocError>
    requires { length asked.now ≤ most_asked }
    ensures { IfOk result (AreTraced history.now asked.now) }
{
    let reached = reached(alloc, history, asked)?;
    let found = with_all_askers(alloc, history.last_live(), &reached)?;
    Ok(Tracing { found })
}
