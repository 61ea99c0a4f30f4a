//! The parts of a server's state, a type for each kind of node, and `Parcels`: any one of them. A child that is `None` is out (lent);
//! a volume that isn't made is there, too.
mod new_parts;
mod putting;
mod standings;
mod taking;
mod whole;

use crate::StripeParcel;
pub(crate) use new_parts::new_root;
use protocol::LABEL_SIZE;
pub(crate) use putting::put_at;
pub(crate) use standings::{files_of, standing_at, volume_at, volume_mut};
pub(crate) use taking::take_at;

/// The Volume Logical of a volume: its files, and below them its stripes.
#[derive(Drop)]
pub struct Logical {
    /// File `f` is bit `f`.
    pub(crate) files: u64,
    pub(crate) stripes: Vec<Option<StripeParcel>>,
}

/// The label of a volume: none where the volume is not made.
#[derive(Drop)]
pub struct Label {
    pub(crate) bytes: Option<[u8; LABEL_SIZE]>,
}

/// A volume: its flags, and below it its files and stripes, and its label.
#[derive(Drop)]
pub struct Vol {
    pub(crate) made: bool,
    pub(crate) sealed: bool,
    pub(crate) logical: Option<Logical>,
    pub(crate) label: Option<Label>,
}

/// The volumes of an aggregate.
#[derive(Drop)]
pub struct Aggr {
    pub(crate) volumes: Vec<Option<Vol>>,
}

/// The aggregates of a server.
#[derive(Drop)]
pub struct Root {
    pub(crate) aggregates: Vec<Option<Aggr>>,
}

/// What lies at one place of the tree and below it. Moving it copies a few machine words, however much
/// it holds.
#[derive(Drop)]
pub enum Parcels {
    Root(Root),
    Aggr(Aggr),
    Vol(Vol),
    Logical(Logical),
    Stripe(StripeParcel),
    Label(Label),
}

/// What a message sees of the nodes above its place. At a stripe: the flags of its volume (made, sealed)
/// and its files. At a Volume Logical or a Volume Label: the flags, and 0 for the files. At any other
/// place nothing: `false` and 0.
#[derive(Clone, Copy, Debug, PartialEq, Eq)]
pub struct Standing {
    pub made: bool,
    pub sealed: bool,
    /// File `f` is bit `f`.
    pub files: u64,
}
