//! The rows that are kept of the regions that were let go.

ghost use Rattle.std.specs.Prelude.{◌≡◌, [], IfOk, OnOk, map};
ghost use Rattle.std.specs.Option.{option_copied};
ghost use Rattle.lpis_release.specs.Release.{pieces_named};
ghost use Rattle.lpis_country_seam.specs.private.Kept.{row_box, row_in, with_kept_row};
ghost use Rattle.lpis_country_seam.specs.private.Testing.{row_named};

use indexmap::IndexSet;
use lpis_country::box_of_polygon;
use lpis_memory::Sequence;
use lpis_points::Box4;
use lpis_release::{Parcel, Release, copy_parcel, copy_pieces_of};
use lpis_tables::{Id, Piece};
use std::alloc::{AllocError, Global};
use std::marker::Model;

/// A parcel that a later region has to have too, with its pieces in the order of their table.
#[derive(Debug, Drop)]
pub struct KeptRow {
    pub parcel: Parcel,
    pub pieces: Sequence<Piece>,
}

impl KeptRow {
    /// The row of a parcel of a region.
    pub(crate) fn of(
        alloc: Global,
        release: &Release,
        parcel: &Parcel,
    ) -> Result<KeptRow, AllocError>
        ensures { IfOk result (λ row. row ≡ row_in release.now parcel.now) }
    {
        let pieces = copy_pieces_of(alloc, release, &parcel.id)?;
        let parcel = copy_parcel(alloc, parcel)?;
        Ok(KeptRow {
            parcel,
            pieces: Sequence::new(pieces),
        })
    }
}

/// So many rows may come in, and as many as there are, before those that are done with are let go.
const FEW: usize = 64;

/// Rows in the order in which their parcels first stood, no two with one identifier. Contracts see
/// their list. A row is found by its identifier in constant time.
#[derive(Drop)]
pub(crate) struct KeptRows {
    rows: Vec<KeptRow>,
    /// The box of each row's parcel.
    boxes: Vec<Box4>,
    keys: IndexSet<Id>,
    /// How many rows there may be before those that are done with are let go.
    most: usize,
}

impl Model for KeptRows {
    ghost use Rattle.std.specs.Prelude.{◌≡◌, List, map};
    ghost use Rattle.lpis_country_seam.specs.declared.kept.KeptRow.{KeptRow};
    ghost use Rattle.lpis_country_seam.specs.private.Kept.{row_box};

    ghost Value = { List KeptRow };

    ghost view = { λ k. k.rows.items };

    ghost invariant = { λ k. (k.keys.keys ≡ map (λ o. o.parcel.id) k.rows.items)
        × (k.boxes.items ≡ map row_box k.rows.items) };
}

impl KeptRows {
    /// No rows.
    pub(crate) fn new(alloc: Global) -> KeptRows
        ensures { result ≡ [] }
    {
        KeptRows {
            rows: Vec::new(alloc),
            boxes: Vec::new(alloc),
            keys: IndexSet::new(alloc),
            most: FEW,
        }
    }

    /// The rows in their order.
    pub(crate) fn as_slice(&self) -> &[KeptRow]
        ensures { result.now ≡ self.now }
    {
        self.rows.as_slice()
    }

    /// The box of each row's parcel, in their order.
    pub(crate) fn boxes(&self) -> &[Box4]
        ensures { result.now ≡ map row_box self.now }
    {
        self.boxes.as_slice()
    }

    /// Whether so many rows came in that it is time to let those go that are done with.
    pub(crate) fn is_full(&self) -> bool {
        self.rows.len() > self.most
    }

    /// The same rows, after those that are done with were let go.
    pub(crate) fn settled(mut self) -> KeptRows
        ensures { result ≡ self }
    {
        self.most = self.rows.len().saturating_mul(2).saturating_add(FEW);
        self
    }

    /// The rows alone, in their order.
    pub(crate) fn into_rows(self) -> Vec<KeptRow>
        ensures { result.items ≡ self }
    {
        let KeptRows { rows, .. } = self;
        rows
    }

    /// The row of an identifier, where there is one.
    pub(crate) fn get(&self, id: &Id) -> Option<&KeptRow>
        ensures { option_copied result ≡ row_named self.now id.now }
    {
        match self.keys.get_index_of(id) {
            Some(index) => self.rows.get(index),
            None => None,
        }
    }

    /// The rows with one more at their end, unless one of its identifier is there.
    pub(crate) fn with(self, row: KeptRow) -> Result<KeptRows, AllocError>
        ensures { IfOk result (λ rows. rows ≡ with_kept_row self row) }
    {
        let KeptRows {
            mut rows,
            mut boxes,
            mut keys,
            most,
        } = self;
        if keys.insert(row.parcel.id.copy()?)? {
            boxes.push(box_of_polygon(&row.parcel.polygon))?;
            rows.push(row)?;
        }
        Ok(KeptRows {
            rows,
            boxes,
            keys,
            most,
        })
    }
}
