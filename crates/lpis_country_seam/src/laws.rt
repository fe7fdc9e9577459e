//! The laws of regions without a fault of the seam, the contract of a function that does nothing
//! else.

ghost use Rattle.lpis_country_seam.specs.Laws.{JoinedCountryIsSound, JoinedCountryIsUnion};

use lpis_release::laws::tests_find_equal_rows;

/// Regions none of which has a fault of the seam after those before it make a country that is their
/// union. Where they are sound maps, one for each tile, so is the country.
pub fn a_country_of_joined_regions_is_sound()
    ensures sound { JoinedCountryIsSound }
    ensures union { JoinedCountryIsUnion }
{
    tests_find_equal_rows();
}
