//! The blocks of one stripe of a volume, in memory that is taken at the start.
#![tactic(auto)]

mod blocks;

pub use blocks::StripeParcel;
