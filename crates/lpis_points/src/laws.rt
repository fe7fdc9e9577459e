//! Laws of the plane, each the contract of a function that does nothing else.

mod chains;
mod equality;
mod shift;
mod triangles;

pub use chains::{
    equal_net_counts_give_equal_sums, net_counts_are_of_their_edges,
    sums_change_sign_with_their_edges,
};
pub use equality::points_with_equal_coordinates_are_equal;
pub use shift::the_shifted_point_is_off_every_line_and_crossed_alike;
pub use triangles::{
    an_area_is_of_its_terms, flats_never_turn, triangles_keep_apart, triangles_turn_once,
};
