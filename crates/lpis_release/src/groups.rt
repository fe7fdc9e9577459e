//! The pieces of each parcel, by index.

ghost use Rattle.std.specs.Prelude.{◌≡◌, ℕ, IfOk, filter};
ghost use Rattle.lpis_release.specs.private.Groups.{group_at, is_of_parcel};

use std::alloc::AllocError;
use std::marker::Model;

/// A piece and its parcel, by their indices.
#[derive(Clone, Copy, Debug)]
pub(crate) struct Join {
    pub parcel: u32,
    pub piece: u32,
}

/// The joins of a release by their parcels, those of one parcel in the order of the pieces.
/// Contracts see their list.
#[derive(Drop)]
pub(crate) struct Groups {
    joins: Vec<Join>,
}

impl Model for Groups {
    ghost use Rattle.std.specs.Prelude.{List};
    ghost use Rattle.std.specs.List.Sorted.{IsNonDecreasingBy};
    ghost use Rattle.lpis_release.specs.declared.groups.Join.{Join};

    ghost Value = { List Join };

    ghost view = { λ g. g.joins.items };

    ghost invariant = { λ g. IsNonDecreasingBy (λ j. j.parcel) g.joins.items };
}

impl Groups {
    /// The groups of these joins.
    pub(crate) fn of(mut joins: Vec<Join>) -> Result<Groups, AllocError>
        ensures { IfOk result (λ groups. (k : ℕ) → group_at groups k ≡ group_at joins.items k) }
    {
        joins.sort_by_key(|join| join.parcel)?;
        Ok(Groups { joins })
    }

    /// The joins of the parcel at an index. They are found by halving.
    pub(crate) fn get(&self, parcel: usize) -> &[Join]
        ensures { result.now ≡ filter (is_of_parcel parcel) self.now }
    {
        let start = self
            .joins
            .partition_point(|join| (join.parcel as usize) < parcel);
        let rest = &self.joins[start..];
        let count = rest.partition_point(|join| join.parcel as usize == parcel);
        &rest[..count]
    }
}
