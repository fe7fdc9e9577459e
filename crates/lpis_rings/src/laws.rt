//! Laws of polygons, each the contract of a function that does nothing else, with those of sums
//! over edges, among them the chain lemma.

mod covering;
mod sums;

pub use covering::{
    a_parcel_is_its_pieces, an_area_is_of_its_triangles, pieces_share_nothing,
    the_turns_of_a_piece_are_its_triangles,
};
pub use lpis_points::laws::{
    equal_net_counts_give_equal_sums, net_counts_are_of_their_edges,
    sums_change_sign_with_their_edges,
};
pub use sums::{an_area_is_of_its_edges, containment_is_the_parity_of_turns};
