//! Rings and polygons, their areas, their edges, and the points that they contain. No call takes
//! memory but `copy`.
//!
//! The layer above may cite: `edges` is the list; `turns`, `contains`, `area2`.
//! Begin at `specs/Edges.antt`, then `src/polygon.rt`.
//!
//! | Call | Answer |
//! |---|---|
//! | `Ring::new` | the ring, or its points back exactly where they are fewer than four or the last differs from the first |
//! | `Polygon::new` | the polygon, or its members back exactly where there is none or they have more than 100,000 points |
//! | `shoelace`, `area2` | twice the signed area of a ring; twice the area of a polygon |
//! | `edges` | the directed edges of a polygon in normal orientation, members in order, each shell before its holes |
//! | `turns` | the sum of the crossings of these edges by a point |
//! | `contains` | whether the number of these edges with a crossing other than 0 is odd |
//! | `copy` | an equal ring, member or polygon |
//!
//! Each answer is proved to be that of the definitions in `specs/Ring.antt`, `specs/Polygon.antt`,
//! `specs/Area.antt` and `specs/Edges.antt`. What follows from these definitions at every rational
//! point stands in `laws`.
#![tactic(auto)]

mod area;
mod crossings;
pub mod laws;
mod polygon;
mod ring;
mod walks;

pub use area::{area2, shoelace};
pub use crossings::{contains, edges, turns};
pub use polygon::{BadPolygon, MOST_POINTS, Member, Polygon, PolygonFault};
pub use ring::{BadRing, Ring, RingFault};
pub use walks::Edges;
