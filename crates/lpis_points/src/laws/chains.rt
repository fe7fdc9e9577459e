//! Sums over edges.

ghost use Rattle.lpis_points.specs.ChainLaws.{ChainLemma, CrossingsAreOdd, NetIsOfItsEdges};
ghost use Rattle.lpis_points.specs.ChainLaws.{ShoelaceTermsAreOdd};

/// The chain lemma. Net counts are whole numbers, and edges from a point to itself count nothing.
pub fn equal_net_counts_give_equal_sums()
    ensures { ChainLemma }
{}

/// What the chain lemma is used for.
pub fn sums_change_sign_with_their_edges()
    ensures crossings { CrossingsAreOdd }
    ensures terms { ShoelaceTermsAreOdd }
{}

/// Two lists have the same net counts where they have them at each edge of theirs.
pub fn net_counts_are_of_their_edges()
    ensures { NetIsOfItsEdges }
{}
