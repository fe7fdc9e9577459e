//! How the map is cut into strips.

ghost use Rattle.std.specs.Prelude.{◌<◌, ◌^◌, length};
ghost use Rattle.lpis_places.specs.private.Starts.{AreRising};

/// Strips from left to right, by where each but the first begins, in millionths of a millimetre.
#[derive(Debug, Drop)]
pub(crate) struct Grid {
    pub starts: Vec<i64>,
    pub ghost rising: { AreRising starts.items },
    pub ghost few: { length starts.items < 2 ^ 32 },
}
