//! What may be published: the parcels of a sound map.

ghost use Rattle.std.specs.Prelude.{◌≡◌, List};
ghost use Rattle.lpis_release.specs.declared.parcel.Parcel.{Parcel};
ghost use Rattle.lpis_register.specs.Answering.{AreOfSoundMap};

use lpis_checker::Yes;
use lpis_country_seam::Joined;
use lpis_release::Parcel;

/// What has the parcels of a sound map, as a release that the check said yes to, or a country whose
/// regions joined. Another type has to prove that it has.
pub trait SoundParcels {
    /// Its parcels.
    ghost parcels: { Self → List Parcel };

    /// Its parcels, lent. It takes no memory.
    fn sound_parcels(&self) -> &[Parcel]
        ensures are { result.now ≡ parcels self.now }
        ensures sound { AreOfSoundMap (parcels self.now) };
}

impl<'a> SoundParcels for Yes<'a> {
    ghost parcels = { λ release. release.parcels };

    fn sound_parcels(&self) -> &[Parcel] {
        self.release().parcels()
    }
}

impl SoundParcels for Joined {
    ghost parcels = { λ parcels. parcels };

    fn sound_parcels(&self) -> &[Parcel] {
        self.parcels()
    }
}
