//! Laws of polygons that make up another, each the contract of a function that does nothing else.

ghost use Rattle.lpis_edge_sums.specs.MakingLaws.{MergedMakesUp, SplitMakesUp};
ghost use Rattle.lpis_edge_sums.specs.MakingLaws.{WholeHasAreaOfParts, WholeTurnsAsParts};

/// A polygon that others make up, with flats, turns round each point as often as these together,
/// and has their area.
pub fn a_whole_turns_as_its_parts()
    ensures turns { WholeTurnsAsParts }
    ensures area { WholeHasAreaOfParts }
{}

/// Parts that turn round a point once or not at all, of which no two share one, make up a whole that
/// turns as they do and of which nothing else is known: it contains a point exactly where exactly
/// one of them does.
pub fn a_split_is_exact()
    ensures { SplitMakesUp }
{}

/// So do parts that turn round a point once or not at all, where their whole does too.
pub fn a_merge_is_exact()
    ensures { MergedMakesUp }
{}
