//! What is read before the first region: the plan of the country, and its table of classes.

ghost use Rattle.std.specs.Prelude.{◌≡◌, IfErr, IfOk, Ok, map};
ghost use Rattle.std.specs.String.{string_bytes};
ghost use Rattle.lpis_run.specs.Stops.{IsRefusedAs};
ghost use Rattle.lpis_tables.specs.Classes.{classes_table};
ghost use Rattle.lpis_tables.specs.Faults.{rows_of};
ghost use Rattle.lpis_run.specs.Failures.{AreUnread, AreUntouched};
ghost use Rattle.lpis_run.specs.Folders.{top_by, top_named};
ghost use Rattle.lpis_run.specs.Inputs.{top_of};
ghost use Rattle.lpis_run_country.specs.Beginning.{IsBegun, IsPlanned, IsUnbegun};
ghost use Rattle.lpis_run_country.specs.Regions.{AreCountryRead};
ghost use Rattle.lpis_run_country.specs.private.Beginning.{IsClassesRefusal, IsPlanIn};
ghost use Rattle.lpis_run_country.specs.private.Beginning.{IsPlanRefusal};

use crate::refusals::refuse_plan;
use lpis_country::{Plan, PlanFault, read_plan};
use lpis_points::Box4;
use lpis_run::{Answer, Failure, Name, Stop, Top, read_lent};
use lpis_tables::{Class, Classes, TableFault, read_classes};
use std::alloc::Global;
use std::io::Read;
use std::marker::Model;

/// Names of folders, the tile of each, and the classes of all regions. Contracts see the three
/// lists.
#[derive(Drop)]
pub struct Begun {
    names: Vec<String>,
    tiles: Vec<Box4>,
    classes: Vec<Class>,
}

impl Model for Begun {
    ghost use Rattle.std.specs.Prelude.{map};
    ghost use Rattle.std.specs.String.{string_bytes};
    ghost use Rattle.lpis_run_country.specs.Beginning.{BegunParts, IsPlanned};

    ghost Value = { BegunParts };

    ghost view = { λ b. record {
      names = map string_bytes b.names.items;
      tiles = b.tiles.items;
      classes = b.classes.items;
    } };

    ghost invariant = { λ b. IsPlanned (map string_bytes b.names.items) b.tiles.items };
}

impl Begun {
    /// What these lists say, with a tile of a tiling for each name.
    pub fn new(names: Vec<String>, tiles: Vec<Box4>, classes: Vec<Class>) -> Begun
        requires { IsPlanned (map string_bytes names.items) tiles.items }
        ensures names { result.names ≡ map string_bytes names.items }
        ensures tiles { result.tiles ≡ tiles.items }
        ensures classes { result.classes ≡ classes.items }
    {
        Begun {
            names,
            tiles,
            classes,
        }
    }

    /// The three lists.
    pub fn into_parts(self) -> (Vec<String>, Vec<Box4>, Vec<Class>)
        ensures names { map string_bytes result.0.items ≡ self.names }
        ensures tiles { result.1.items ≡ self.tiles }
        ensures classes { result.2.items ≡ self.classes }
        ensures planned { IsPlanned self.names self.tiles }
    {
        (self.names, self.tiles, self.classes)
    }
}

/// All bytes of the two files, which are read in this order. Where one is not read, the one behind
/// it is as it was.
pub fn read_top<R: Read + Drop>(alloc: Global, top: &mut Top<R>) -> Result<Top<Vec<u8>>, Failure>
    ensures bytes { IfOk result (λ b. AreCountryRead (top_of b) (top_by R.remaining top.old)) }
    ensures failure { IfErr result (AreUnread (top_named (top_by R.remaining top.old))) }
    ensures untouched { IfErr result (AreUntouched (top_named top.old) (top_named top.new)) }
{
    let plan = read_lent(alloc, &mut top.plan, Name::Country)?;
    let classes = read_lent(alloc, &mut top.classes, Name::Classes)?;
    Ok(Top { plan, classes })
}

/// The plan of a text, whose bytes are let go, or the line of the text's first fault.
fn plan_in(alloc: Global, text: Vec<u8>) -> Result<Plan, Stop>
    ensures plan { IfOk result (IsPlanIn text.items) }
    ensures refusal { IfErr result (IsRefusedAs (IsPlanRefusal text.items)) }
{
    match read_plan(alloc, text.as_slice()) {
        Ok(plan) => Ok(plan),
        Err(PlanFault::Memory) => Err(Stop::Memory),
        Err(PlanFault::At { line }) => Err(Stop::Refused(refuse_plan(alloc, line)?)),
    }
}

/// The classes of a table, whose bytes are let go, or the line of the table's first fault.
fn classes_in(alloc: Global, table: Vec<u8>) -> Result<Classes, Stop>
    ensures classes { IfOk result (λ k. rows_of classes_table table.items ≡ Ok k) }
    ensures refusal { IfErr result (IsRefusedAs (IsClassesRefusal table.items)) }
{
    match read_classes(alloc, table.as_slice()) {
        Ok(classes) => Ok(classes),
        Err(TableFault::Memory) => Err(Stop::Memory),
        Err(fault) => Err(Stop::Refused(Answer::refuse_table(alloc, &fault)?)),
    }
}

/// The plan and the classes, or the line of the first fault: of the plan, then of the classes.
pub fn begin(alloc: Global, top: Top<Vec<u8>>) -> Result<Begun, Stop>
    ensures begun { IfOk result (IsBegun (top_of top)) }
    ensures refusal { IfErr result (IsRefusedAs (IsUnbegun (top_of top))) }
{
    let Top { plan, classes } = top;
    let plan = plan_in(alloc, plan)?;
    let classes = classes_in(alloc, classes)?;
    let (names, tiles) = plan.into_parts();
    Ok(Begun::new(names, tiles, classes.into_rows()))
}
