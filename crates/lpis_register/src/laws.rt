//! Laws of the definitions: functions that do nothing, and whose contracts say them.

ghost use Rattle.std.specs.Prelude.{◌≡◌, ◌++◌, [], false, List};
ghost use Rattle.sqlite.specs.Effect.{Database};
ghost use Rattle.sqlite.specs.Held.{state};
ghost use Rattle.sqlite.specs.State.{Opens};
ghost use Rattle.sqlite.specs.Tree.{Trees};
ghost use Rattle.lpis_lineage_exact.specs.ExactLineage.{ShapesTurnOnce};
ghost use Rattle.lpis_lineage_exact.specs.Shapes.{shape_named};
ghost use Rattle.lpis_lineage.specs.declared.row.Entry.{Entry};
ghost use Rattle.lpis_register_rows.specs.Histories.{IsSameHistory};
ghost use Rattle.lpis_register.specs.Calls.{AllLead, AreReleasesOf, Call, accepted};
ghost use Rattle.lpis_register.specs.Holdings.{Holdings, holdings};
ghost use Rattle.lpis_register.specs.Saying.{IsSaid, LeavesSaid, SaysHistory, SaysNoHistory};
ghost use Rattle.lpis_register.specs.Saying.{SaysNone, SaysRegister};
ghost use Rattle.lpis_register_sql.specs.Presence.{AreThere, is_any};
ghost use Rattle.lpis_register_sql.specs.declared.found.Found.{Found};
ghost use Rattle.lpis_register_rows.specs.Shapes.{Shape};

use lpis_register_rows::{
    order_of_rows_is_free, tables_have_one_history, texts_keep_one_list_of_shapes,
};
use lpis_register_sql::a_table_has_one_answer;
use sqlite::{Alter, Connection};

/// After any list of calls of `publish` the history is the one before them with the accepted
/// releases at its end, in their order. It is lawful, as every history, so years rise and none
/// stands there twice.
pub fn accepted_releases_stand_in_order()
    ensures { (before after : Holdings) (calls : List Call) → AllLead calls before after
        → (es : List Entry) × (after.history ≡ before.history ++ es)
        × AreReleasesOf (accepted calls) es }
{}

/// After any list of calls of `publish` the kept shapes turn once at most where those before did,
/// as on a register that was opened in memory, which keeps none. The merges of the next release
/// rest on that.
pub fn kept_shapes_turn_once()
    ensures after { (before after : Holdings) (calls : List Call) → AllLead calls before after
        → ShapesTurnOnce (shape_named before.shapes)
        → ShapesTurnOnce (shape_named after.shapes) }
    ensures in_memory { (after : Holdings) (calls : List Call)
        → AllLead calls (holdings [] []) after → ShapesTurnOnce (shape_named after.shapes) }
{}

/// While the tables of a database say a history and shapes, a crash leaves tables that say them,
/// and nothing else; and an opening of what a crash left finds what it says.
pub fn a_crash_leaves_what_is_said<S: Alter>(conn: &Connection<S>)
    ensures left { (h : List Entry) (shapes : List Shape)
        → IsSaid (state S.Store conn.now) h shapes → (db : Trees)
        → (state S.Store conn.now).may_leave db → LeavesSaid h shapes db }
    ensures found { (h : List Entry) (shapes : List Shape) → Opens (state S.Store conn.now)
        → LeavesSaid h shapes (state S.Store conn.now).committed.trees
        → SaysRegister (state S.Store conn.now).now h shapes }
{
    let _ = conn.schema();
}

/// Whatever tables a database has, and in whatever order, they say one history and one list of
/// shapes: where they say some, they do not say none, unless none is there.
pub fn a_database_says_one_register()
    ensures history { (db : Database) (h k : List Entry) (shapes others : List Shape)
        → SaysRegister db h shapes → SaysRegister db k others → IsSameHistory h k }
    ensures shapes { (db : Database) (h k : List Entry) (shapes others : List Shape)
        → SaysRegister db h shapes → SaysRegister db k others → shapes ≡ others }
    ensures read { (db : Database) (h k : List Entry) (shapes : List Shape)
        → SaysHistory db h → SaysRegister db k shapes → IsSameHistory h k }
    ensures some { (db : Database) (h : List Entry) (shapes : List Shape)
        → SaysRegister db h shapes → SaysNone db → ⊥ }
    ensures unread { (db : Database) (h : List Entry) (shapes : List Shape)
        → SaysRegister db h shapes → SaysNoHistory db
        → (found : Found) × AreThere db.schema found × (is_any found ≡ false) }
{
    a_table_has_one_answer();
    order_of_rows_is_free();
    texts_keep_one_list_of_shapes();
    tables_have_one_history();
}
