//! The fields of a row: identifiers and polygons.

ghost use Rattle.std.specs.Prelude.{◌≡◌, ◌++◌, ◌∷◌, [], IfOk, OnErr};
ghost use Rattle.lpis_tables.specs.Faults.{id_faults, key_faults, polygon_faults, polygon_in};
ghost use Rattle.lpis_tables.specs.Faults.{unless_faulty};
ghost use Rattle.lpis_tables.specs.Table.{Answers, field_of};

use crate::fault::{TableCode, TableFault};
use crate::id::Id;
use crate::keys::Keys;
use crate::reader::TableReader;
use lpis_rings::Polygon;
use lpis_wkt::{WktFault, read};
use std::alloc::Global;

impl<'a> TableReader<'a> {
    /// The identifier in the k-th wanted field of the row that was read last.
    pub fn id(&self, alloc: Global, k: usize) -> Result<Id, TableFault>
        ensures { let field = field_of self.now.row k in
            Answers result (unless_faulty (id_faults self.now.table self.now.number field) field) }
    {
        match Id::read(alloc, self.field(k))? {
            Some(id) => Ok(id),
            None => Err(self.fault(TableCode::BadIdentifier)),
        }
    }

    /// The identifier in the k-th wanted field of the row that was read last, which is added to the
    /// keys of the rows before it and may not be among them. A refusal adds nothing.
    pub(crate) fn key(&self, alloc: Global, k: usize, keys: &mut Keys) -> Result<Id, TableFault>
        ensures answers { let field = field_of self.now.row k in
            Answers result (unless_faulty (key_faults self.now.table self.now.number keys.old field)
            field) }
        ensures added { IfOk result (λ id. keys.new ≡ keys.old ++ id ∷ []) }
        ensures refused { OnErr result (keys.new ≡ keys.old) }
    {
        let id = self.id(alloc, k)?;
        if !keys.add(&id)? {
            return Err(self.fault(TableCode::DoubledIdentifier));
        }
        Ok(id)
    }

    /// The polygon in the k-th wanted field of the row that was read last.
    pub fn polygon(&self, alloc: Global, k: usize) -> Result<Polygon, TableFault>
        ensures { let field = field_of self.now.row k in
            Answers result (unless_faulty (polygon_faults self.now.table self.now.number field)
            (polygon_in field)) }
    {
        let Ok(text) = str::from_utf8(self.field(k)) else {
            return Err(self.fault(TableCode::NotCsv));
        };
        match read(alloc, text) {
            Ok(polygon) => Ok(polygon),
            Err(WktFault::Memory) => Err(TableFault::Memory),
            Err(WktFault::At { code, offset }) => {
                Err(self.geometry_fault(WktFault::At { code, offset }))
            }
        }
    }
}
