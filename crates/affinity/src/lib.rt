//! The configuration of a server (its geometry), the kinds of its messages, and where in the tree of affinities each message belongs.

#![tactic(auto)]

mod affinities;
mod geometry;
mod kinds;
pub mod limits;
mod places;

pub use affinities::{Affinity, related};
pub use geometry::{BadGeometry, Geometry};
pub use kinds::{Kind, changing};
pub use places::{Place, group_of, is_in_range, place_of};
