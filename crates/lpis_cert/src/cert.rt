//! Certificates.

ghost use Rattle.std.specs.Prelude.{◌≡◌, ◌≤◌, ◌+◌, [], length, sum_by};
ghost use Rattle.lpis_cert.specs.Limits.{most_flats, greatest_count};
ghost use Rattle.lpis_points.specs.Triangles.{most_triangles};

use crate::part::{ExactBlock, PairLine, ParcelPart, PiecePart};
use lpis_memory::Sequence;
use std::alloc::Global;

/// The most triangles of a certificate.
pub const MOST_TRIANGLES: u64 = 2_000_000;

/// The most flats of a certificate, of its pieces, parcels and exact blocks together.
pub const MOST_FLATS: u64 = 2_000_000;

/// The evidence that a release is sound: its pieces and parcels in parts, and the separators of
/// near pairs; and that splits and merges are exact. Triangles are numbered from 0 over all pieces,
/// in order. The type keeps the limits of the text.
#[derive(Debug, Drop)]
pub struct Cert {
    pub pieces: Sequence<PiecePart>,
    pub parcels: Sequence<ParcelPart>,
    pub exact: Sequence<ExactBlock>,
    pub pairs: Sequence<PairLine>,
    pub ghost triangles_few: { sum_by (λ p. length p.triangles) pieces ≤ most_triangles },
    pub ghost flats_few: { sum_by (λ p. length p.flats) pieces + sum_by (λ p. length p.flats)
        parcels + sum_by (λ b. length b.flats) exact ≤ most_flats },
    pub ghost pairs_few: { length pairs ≤ greatest_count },
}

impl Cert {
    /// A certificate without parts.
    pub fn empty(alloc: Global) -> Cert
        ensures pieces { result.pieces ≡ [] }
        ensures parcels { result.parcels ≡ [] }
        ensures exact { result.exact ≡ [] }
        ensures pairs { result.pairs ≡ [] }
    {
        Cert {
            pieces: Sequence::new(Vec::new(alloc)),
            parcels: Sequence::new(Vec::new(alloc)),
            exact: Sequence::new(Vec::new(alloc)),
            pairs: Sequence::new(Vec::new(alloc)),
        }
    }
}
