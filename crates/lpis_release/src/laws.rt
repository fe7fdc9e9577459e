//! Laws of equal rows, each the contract of a function that does nothing else.

ghost use Rattle.lpis_release.specs.Equality.{TestsFindEqualRows};

/// The tests of polygons, of lists of pieces and of classes tell equal ones.
pub fn tests_find_equal_rows()
    ensures { TestsFindEqualRows }
{}
