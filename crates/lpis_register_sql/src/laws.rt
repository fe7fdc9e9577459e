//! Laws of the definitions: functions that do nothing, and whose contracts say them.

ghost use Rattle.std.specs.Prelude.{◌≡◌, true, IsPermutation, List};
ghost use Rattle.sqlite.specs.Effect.{Database};
ghost use Rattle.sqlite.specs.Order.{Row};
ghost use Rattle.lpis_register_sql.specs.Presence.{has_table};
ghost use Rattle.lpis_register_sql.specs.Showing.{AnswersQuery};
ghost use Rattle.lpis_register_sql.specs.StoredTables.{StoredTable, name_of, query_of};

/// Two answers to the query of a table that is there are the same rows, in some order. Nothing is
/// asked of what else the database has, nor of the table's columns.
pub fn a_table_has_one_answer()
    ensures { (db : Database) (t : StoredTable) (rows others : List Row)
        → has_table db.schema (name_of t) ≡ true → AnswersQuery db (query_of t) rows
        → AnswersQuery db (query_of t) others → IsPermutation rows others }
{}
