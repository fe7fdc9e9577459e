//! Laws of good certificates, each the contract of a function that does nothing else.

ghost use Rattle.lpis_checker.specs.Laws.{GoodMeansSound};

/// A release for which some certificate is good is a sound map, where no two of its parcels have
/// one identifier.
pub fn a_good_certificate_shows_a_sound_map()
    ensures { GoodMeansSound }
{}
