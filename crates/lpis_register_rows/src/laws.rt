//! Laws of the definitions: functions that do nothing, and whose contracts say them.

ghost use Rattle.std.specs.Prelude.{◌≡◌, ◌↔◌, List, [], IsPermutation};
ghost use Rattle.lpis_lineage.specs.declared.row.Entry.{Entry};
ghost use Rattle.lpis_register_rows.specs.Content.{Content, StoredText, without_texts};
ghost use Rattle.lpis_register_rows.specs.Histories.{IsSameContent, IsSameHistory, TablesHave};
ghost use Rattle.lpis_register_rows.specs.Shapes.{Shape, ShapesAre};
ghost use Rattle.lpis_register_rows.specs.declared.version.Version.{Version};

use lpis_wkt::laws::function_of_text;

/// Tables say one history.
pub fn tables_have_one_history()
    ensures { (version : Version) (c : Content) (h k : List Entry) → TablesHave version c h
        → TablesHave version c k → IsSameHistory h k }
{}

/// Rows in another order say the same history, and so they do without the texts.
pub fn order_of_rows_is_free()
    ensures { (version : Version) (c d : Content) (h : List Entry)
        → IsSameContent (without_texts c) d → TablesHave version c h ↔ TablesHave version d h }
{}

/// Texts keep one list of shapes, in whatever order they are.
pub fn texts_keep_one_list_of_shapes()
    ensures one { (texts others : List StoredText) (shapes kept : List Shape)
        → IsPermutation texts others → ShapesAre texts shapes → ShapesAre others kept
        → shapes ≡ kept }
    ensures reordered { (texts others : List StoredText) (shapes : List Shape)
        → IsPermutation texts others → ShapesAre texts shapes → ShapesAre others shapes }
    ensures nothing { ShapesAre [] [] }
{
    function_of_text();
}
