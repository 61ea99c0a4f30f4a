//! What every message means: the states of a server, the reply and the effect of a message in one, and their laws.
//!
//! The definitions are in `specs`; no code runs here.
#![tactic(auto)]

pub mod laws;
