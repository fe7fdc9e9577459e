//! The lineage tables of a country's regions.

ghost use Rattle.std.specs.Prelude.{◌≡◌, ◌<◌, [], ℕ, List, get_or, IfErr, IfOk, length, map, OnOk};
ghost use Rattle.std.specs.Prelude.{Ok, Option};
ghost use Rattle.std.specs.String.{string_bytes};
ghost use Rattle.lpis_tables.specs.Faults.{rows_of};
ghost use Rattle.lpis_lineage.specs.LineageTable.{lineage_table};
ghost use Rattle.lpis_run.specs.Failures.{IsUnread};
ghost use Rattle.lpis_run.specs.Stops.{IsRefusedAs};
ghost use Rattle.lpis_run.specs.Streams.{IsRead};
ghost use Rattle.lpis_run.specs.declared.failure.Name.TheVariants.{Lineage};
ghost use Rattle.lpis_run_publish_country.specs.CountryLineage.{IsTableRefused, IsUnreadTable};
ghost use Rattle.lpis_run_publish_country.specs.private.Preparing.{AddsTable, AreRowsOf, HasTables};
ghost use Rattle.lpis_run_publish_country.specs.private.Preparing.{AreTablesRefused};
ghost use Rattle.lpis_run_publish_country.specs.private.Preparing.{AreTablesUnread, IsTableAdded};
ghost use Rattle.lpis_run_publish_country.specs.private.Preparing.{IsTableRefusal};
ghost use Rattle.lpis_run_publish_country.specs.private.Unprepared.{IsUnprepared};

use crate::unprepared::Unprepared;
use lpis_lineage::Row;
use lpis_run::{Failure, Name, Stop, read_named};
use lpis_run_publish::rows_in;
use std::alloc::{AllocError, Global};
use std::io::Read;

/// The lineage tables of a country, each of which is opened by the name of its region's folder.
pub trait Lineages {
    /// The reader of a table.
    type Table: Read + Drop;

    /// What is known of the bytes of each table.
    ghost lineages: { Self → List ℕ → Option (List ℕ) };

    /// Opens the lineage table in the folder of this name.
    fn open_lineage(&self, name: &str) -> Result<Self::Table, Failure>
        ensures given { IfOk result (λ t. Self.Table.remaining t ≡ lineages self.now name.now) }
        ensures failure { IfErr result (IsUnread Lineage) };
}

/// The lineage of a country.
#[derive(Drop)]
pub(crate) struct CountryLineage {
    /// Its rows, one table after the other.
    pub(crate) rows: Vec<Row>,
    /// How many rows the table of each region has, in the order of the plan.
    pub(crate) counts: Vec<usize>,
}

impl CountryLineage {
    /// No row of no table.
    fn none(alloc: Global) -> CountryLineage
        ensures { HasTables result [] }
    {
        CountryLineage {
            rows: Vec::new(alloc),
            counts: Vec::new(alloc),
        }
    }

    /// Adds the rows of the next table.
    fn add(&mut self, mut table: Vec<Row>) -> Result<(), AllocError>
        ensures { OnOk result (AddsTable self.old self.new table.items) }
    {
        self.counts.push(table.len())?;
        self.rows.append(&mut table)
    }
}

/// All bytes of the lineage table in the folder of this name.
fn read_table<L: Lineages>(alloc: Global, lineages: &L, name: &str) -> Result<Vec<u8>, Failure>
    ensures bytes { IfOk result (λ v. IsRead v.items (L.lineages lineages.now name.now)) }
    ensures failure { IfErr result (IsUnread Lineage) }
{
    let table = lineages.open_lineage(name)?;
    read_named(alloc, table, Name::Lineage)
}

/// The failure of the table in the folder of this number, whose name may be taken out of the list.
fn of_table(failure: Failure, names: &mut Vec<String>, index: usize) -> Failure
    requires inside { index < length names.old.items }
    requires unread { IsUnread Lineage failure }
    ensures { IsUnreadTable (get_or (map string_bytes names.old.items) index []) result }
{
    match failure {
        Failure::Read(_) => Failure::ReadOf(Name::Lineage, names.swap_remove(index)),
        other => other,
    }
}

/// All bytes of the lineage table in the folder of this number.
fn read_table_at<L: Lineages>(
    alloc: Global,
    lineages: &L,
    names: &mut Vec<String>,
    index: usize,
) -> Result<Vec<u8>, Failure>
    requires inside { index < length names.old.items }
    ensures names { OnOk result (names.new.items ≡ names.old.items) }
    ensures bytes { IfOk result (λ v. IsRead v.items (L.lineages lineages.now
        (get_or (map string_bytes names.old.items) index []))) }
    ensures failure { IfErr result
        (IsUnreadTable (get_or (map string_bytes names.old.items) index [])) }
{
    let read = read_table(alloc, lineages, names[index].as_str());
    match read {
        Ok(table) => Ok(table),
        Err(failure) => Err(of_table(failure, names, index)),
    }
}

/// The rows of a table, whose bytes are let go, or the line of the table's first fault, with the
/// region of this name.
fn rows_of_region(alloc: Global, table: Vec<u8>, name: &str) -> Result<Vec<Row>, Stop>
    ensures rows { IfOk result (λ v. rows_of lineage_table table.items ≡ Ok v.items) }
    ensures refused { IfErr result (IsRefusedAs (IsTableRefusal name.now table.items)) }
{
    match rows_in(alloc, table) {
        Ok(rows) => Ok(rows),
        Err(stop) => Err(stop.in_region(name)),
    }
}

/// Reads the table in the folder of this number, and adds its rows.
fn add_table<L: Lineages>(
    alloc: Global,
    lineages: &L,
    names: &mut Vec<String>,
    index: usize,
    lineage: &mut CountryLineage,
) -> Result<(), Unprepared>
    requires inside { index < length names.old.items }
    ensures names { OnOk result (names.new.items ≡ names.old.items) }
    ensures rows { OnOk result (IsTableAdded (L.lineages lineages.now)
        (get_or (map string_bytes names.old.items) index []) lineage.old lineage.new) }
    ensures unprepared { IfErr result (IsUnprepared
        (IsUnreadTable (get_or (map string_bytes names.old.items) index []))
        (IsTableRefused (L.lineages lineages.now)
        (get_or (map string_bytes names.old.items) index []))) }
{
    let table = read_table_at(alloc, lineages, names, index)?;
    let rows = rows_of_region(alloc, table, names[index].as_str())?;
    lineage.add(rows)?;
    Ok(())
}

/// The rows of the lineage tables in the folders of these names, or the answer to the first table
/// that has a fault.
pub(crate) fn read_lineage<L: Lineages>(
    alloc: Global,
    lineages: &L,
    names: &mut Vec<String>,
) -> Result<CountryLineage, Unprepared>
    ensures names { OnOk result (names.new.items ≡ names.old.items) }
    ensures rows { IfOk result (AreRowsOf (L.lineages lineages.now)
        (map string_bytes names.old.items)) }
    ensures unprepared { IfErr result (IsUnprepared
        (AreTablesUnread (L.lineages lineages.now) (map string_bytes names.old.items))
        (AreTablesRefused (L.lineages lineages.now) (map string_bytes names.old.items))) }
{
    let mut lineage = CountryLineage::none(alloc);
    for index in 0..names.len() {
        add_table(alloc, lineages, names, index, &mut lineage)?;
    }
    Ok(lineage)
}
