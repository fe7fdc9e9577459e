//! Laws of the definitions: functions that do nothing, and whose contracts say them.

ghost use Rattle.std.specs.Prelude.{◌≡◌, ℕ, List, [], None, Some, true, false};
ghost use Rattle.lpis_lineage.specs.declared.fault.LineageFault.{LineageFault};
ghost use Rattle.lpis_lineage.specs.declared.row.Entry.{Entry};
ghost use Rattle.lpis_lineage.specs.declared.row.Row.{Row};
ghost use Rattle.lpis_lineage.specs.declared.span.Span.{Span};
ghost use Rattle.lpis_lineage.specs.Accepts.{MayFollow, NeverFollows};
ghost use Rattle.lpis_lineage.specs.ExactLaws.{KindsShowMerges, KindsShowSplits};
ghost use Rattle.lpis_lineage.specs.Faults.{faults, first};
ghost use Rattle.lpis_lineage.specs.Lawful.{IsLawful, RowsFit};
ghost use Rattle.lpis_lineage.specs.Lineage.{holds};
ghost use Rattle.lpis_lineage.specs.Spans.{span_of};

/// A release may follow a lawful history whose rows fit, in whatever later year, where it has no
/// fault, and in no year where it has one.
pub fn decided_by_faults()
    ensures follows { (h : List Entry) (live : List (List ℕ)) (rows : List Row) → IsLawful h
        → RowsFit h → faults h live rows ≡ [] → MayFollow h live rows }
    ensures refused { (h : List Entry) (live : List (List ℕ)) (rows : List Row)
        (fault : LineageFault) → IsLawful h → RowsFit h → first (faults h live rows) ≡ Some fault
        → NeverFollows h live rows }
{}

/// Of rows without a fault, an identifier is of the kind split exactly where it has several
/// successors, each of which has one predecessor; and a successor is named by rows of the kind
/// merged alone exactly where it has several predecessors, each of which has no other successor.
pub fn kinds_show_splits_and_merges()
    ensures splits { KindsShowSplits }
    ensures merges { KindsShowMerges }
{}

/// An identifier has a span exactly where some release holds it.
pub fn held_identifiers_have_spans()
    ensures held { (h : List Entry) (id : List ℕ) (span : Span) → span_of h id ≡ Some span → (i : ℕ)
        × (holds h i id ≡ true) }
    ensures unheld { (h : List Entry) (id : List ℕ) → span_of h id ≡ None → (i : ℕ)
        → holds h i id ≡ false }
{}
