//! What an image of a server's state is, byte for byte: how a state is spelled in pieces, and how it
//! is read again.
//!
//! The definitions are in `specs/`, and the laws that they obey are the contracts of the functions of
//! `laws`, which do nothing. `layout` is the map of an image, and `touched` tells whether a message may change a piece.
#![tactic(auto)]

pub mod laws;
pub mod layout;
mod touching;

pub use touching::touched;
