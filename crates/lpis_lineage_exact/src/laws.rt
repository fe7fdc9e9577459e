//! Laws of exact lineage, each the contract of a function that does nothing else.

ghost use Rattle.lpis_lineage_exact.specs.Asking.{ShownIsExact};
ghost use Rattle.lpis_lineage_exact.specs.Shapes.{SoundMapsShareNothing, SoundMapsTurnOnce};

use lpis_edge_sums::laws::{a_merge_is_exact, a_split_is_exact};

/// The parcels of a sound map turn once at most, and no point lies in two of them. So it is with
/// the shapes that a register keeps of a published release.
pub fn sound_maps_have_such_shapes()
    ensures once { SoundMapsTurnOnce }
    ensures apart { SoundMapsShareNothing }
{}

/// Where the blocks of a certificate show what the marked rows of a sound map ask for, the map has
/// exact lineage: by the shapes that are kept of the last release.
pub fn what_is_shown_has_exact_lineage()
    ensures { ShownIsExact }
{
    a_split_is_exact();
    a_merge_is_exact();
}
