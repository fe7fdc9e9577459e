//! Laws of answers, each the contract of a function that does nothing else.

ghost use Rattle.std.specs.Prelude.{◌≡◌, ◌≤◌, ◌*◌, List, Some, ℕ};
ghost use Rattle.lpis_tables.specs.Table.{most_rows};
ghost use Rattle.lpis_release.specs.Weighted.{most_weighted};
ghost use Rattle.lpis_run.specs.Area.{most_printed};
ghost use Rattle.lpis_run.specs.CheckAnswer.{Answer, Inputs, IsAnswer};

/// Three tables and a certificate that is named have one answer: one text, and one status.
pub fn a_check_has_one_answer()
    ensures { (x : Inputs) (text : List ℕ) → x.cert ≡ Some text → (a b : Answer) → IsAnswer x a
        → IsAnswer x b → a ≡ b }
{}

/// The weighted areas of as many parcels as a table has, added, are no greater than what is
/// printed.
pub fn a_sum_of_areas_is_printed()
    ensures { most_weighted * most_rows ≤ most_printed }
{}
