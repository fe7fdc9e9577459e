//! The parcels of a country whose regions joined.

ghost use Rattle.std.specs.Prelude.{◌≡◌};
ghost use Rattle.lpis_country_seam.specs.Joined.{HasEnded, IsJoined};

use crate::laws::a_country_of_joined_regions_is_sound;
use crate::seam::OpenSeam;
use lpis_release::Parcel;
use std::marker::Model;

/// The parcels of a country whose regions joined: each once, in the order in which they first
/// stood. Only `OpenSeam::end` makes one. Contracts see their list.
#[derive(Drop)]
pub struct Joined {
    parcels: Vec<Parcel>,
}

impl Model for Joined {
    ghost use Rattle.std.specs.Prelude.{List};
    ghost use Rattle.lpis_release.specs.declared.parcel.Parcel.{Parcel};
    ghost use Rattle.lpis_country_seam.specs.Joined.{IsJoined};

    ghost Value = { List Parcel };

    ghost view = { λ j. j.parcels.items };

    ghost invariant = { λ j. IsJoined j.parcels.items };
}

impl Joined {
    /// The parcels in their order.
    pub fn parcels(&self) -> &[Parcel]
        ensures are { result.now ≡ self.now }
        ensures joined { IsJoined self.now }
    {
        self.parcels.as_slice()
    }
}

impl OpenSeam {
    /// Ends the seam after the last region, where these are the parcels of the country and each
    /// region is a sound map. It takes no memory.
    pub fn end(self, parcels: Vec<Parcel>) -> Joined
        requires { HasEnded self parcels.items }
        ensures { result ≡ parcels.items }
    {
        // Such regions make a country that is a sound map and their union.
        a_country_of_joined_regions_is_sound();
        Joined { parcels }
    }
}
