//! A certificate that is being read, block by block.

ghost use Rattle.std.specs.Prelude.{◌≡◌, ◌≤◌, ◌+◌, true, length, sum_by};
ghost use Rattle.lpis_cert.specs.Limits.{most_flats};
ghost use Rattle.lpis_points.specs.Triangles.{most_triangles};
ghost use Rattle.lpis_cert.specs.declared.kind.Stage.TheVariants.{Pieces};
ghost use Rattle.lpis_cert.specs.declared.kind.Kind.TheVariants.{Parcel};
ghost use Rattle.lpis_cert.specs.declared.kind.Expected.TheVariants.{Block};
ghost use Rattle.lpis_cert.specs.Reading.{can_stand};

use crate::kind::Stage;
use crate::part::{ExactBlock, ParcelPart, PiecePart};
use crate::rest::Rest;
use crate::version::Version;
use lpis_points::Triangle;

/// The blocks so far, how many triangles and flats they have, and the version of their text.
/// `scratch` is the list that a block's triangles are read into before their number is known.
#[derive(Drop)]
pub(crate) struct Draft {
    pub pieces: Vec<PiecePart>,
    pub parcels: Vec<ParcelPart>,
    pub exact: Vec<ExactBlock>,
    pub stage: Stage,
    pub triangles: u64,
    pub flats: u64,
    pub version: Version,
    pub scratch: Vec<Triangle>,
    pub ghost triangles_counted: { triangles ≡ sum_by (λ p. length p.triangles) pieces.items },
    pub ghost flats_counted: { flats ≡ sum_by (λ p. length p.flats) pieces.items + sum_by
        (λ p. length p.flats) parcels.items + sum_by (λ b. length b.flats) exact.items },
    pub ghost triangles_few: { triangles ≤ most_triangles },
    pub ghost flats_few: { flats ≤ most_flats },
    pub ghost no_parcels: { stage ≡ Pieces → length parcels.items ≡ 0 },
    pub ghost no_exact: { can_stand (Block stage) Parcel ≡ true → length exact.items ≡ 0 },
}

/// What came next, and the rest of the text: one more block, or the line that counts the pairs.
#[derive(Clone, Copy)]
pub(crate) enum Progress<'a> {
    More(Rest<'a>),
    Pairs(u32, Rest<'a>),
}
