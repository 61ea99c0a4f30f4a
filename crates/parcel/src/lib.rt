//! What a server holds, split along the tree of affinities: a message runs on the part that was lent
//! to it, and touches nothing else.
#![tactic(auto)]

mod job;
pub mod laws;
mod parts;
mod pieces;
mod running;
mod serial_step;
mod tree;

pub use image::touched;
pub use job::{Done, Job};
pub use parts::{Aggr, Label, Logical, Parcels, Root, Standing, Vol};
pub use pieces::{BadPiece, read_piece, read_piece_1, write_piece};
pub use running::run;
pub use serial_step::step;
pub use stripe::StripeParcel;
pub use tree::Tree;
