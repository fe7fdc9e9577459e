//! Laws of the text alone.

ghost use Rattle.std.specs.Prelude.{◌≡◌, ℕ, List, length, None};
ghost use Rattle.lpis_points.specs.declared.boxes.Box4.{Box4};
ghost use Rattle.lpis_country.specs.Tiling.{rectangles};
ghost use Rattle.lpis_country.specs.Tree.{Tree, folders};
ghost use Rattle.lpis_country.specs.CountryText.{IsCountryText};
ghost use Rattle.lpis_country.specs.Faults.{plan_fault};

/// A text is that of one tree at most.
pub fn one_country_text_a_tree()
    ensures { (text : List ℕ) (t u : Tree) → IsCountryText text t → IsCountryText text u → t ≡ u }
{}

/// The text of a tree has no fault.
pub fn trees_have_no_fault()
    ensures { (text : List ℕ) (t : Tree) → IsCountryText text t → plan_fault text ≡ None }
{}

/// A text without a fault is that of a tree.
pub fn plans_without_fault()
    ensures { (text : List ℕ) → plan_fault text ≡ None → (t : Tree) × IsCountryText text t }
{}

/// A tree has as many folders as tiles.
pub fn as_many_folders_as_tiles()
    ensures { (t : Tree) (b : Box4) → length (folders t) ≡ length (rectangles t b) }
{}
