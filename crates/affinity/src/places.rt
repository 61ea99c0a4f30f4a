//! The places in the tree of affinities, and the place of each message.
ghost use Rattle.std.specs.Prelude.{◌≡◌, ◌<◌, IfSome, is_some};
ghost use Rattle.affinity.specs.Geometry.{stripe_of};
ghost use Rattle.affinity.specs.Interval.{IsAffinityOf};
ghost use Rattle.affinity.specs.Place.{is_in_range, path, path_of_kind};

use crate::{Affinity, Geometry, Kind};

/// A place in the tree of affinities, by the numbers of its aggregate, volume and stripe.
#[derive(Clone, Copy, Debug, PartialEq, Eq)]
pub enum Place {
    /// The whole server.
    Serial,
    Aggregate(u16),
    Volume(u16, u16),

    /// The files and blocks of a volume.
    Logical(u16, u16),

    /// The blocks of a volume that lie in one stripe.
    Stripe(u16, u16, u16),

    /// The label of a volume.
    Label(u16, u16),
}

/// The number, in its volume, of the stripe to which block `b` of file `f` belongs. Runs of `width`
/// blocks go to one stripe after another, and each file begins one stripe after the file before it.
pub fn group_of(g: &Geometry, f: u16, b: u16) -> u16
    ensures value { result ≡ stripe_of g.now f b }
    ensures below { result < g.now.stripes }
{
    let turn = u32::from(f) + u32::from(b / g.width);
    (turn % u32::from(g.stripes)) as u16
}

/// Where a message of this kind with these numbers (aggregate, volume, file and block) belongs, as an affinity.
/// There is none where a number that the kind has is out of range. Numbers that the kind doesn't
/// have are ignored.
pub fn place_of(g: &Geometry, k: Kind, n: [u16; 4]) -> Option<Affinity>
    ensures in_range { is_some result ≡ is_in_range g.now k n }
    ensures placed { IfSome result (IsAffinityOf g.now (path_of_kind g.now k n)) }
{
    if !is_in_range(g, k, n) {
        return None;
    }
    Some(Affinity::at(g, place_by(g, k, n)))
}

/// The place of a message.
fn place_by(g: &Geometry, k: Kind, n: [u16; 4]) -> Place
    ensures { path result ≡ path_of_kind g.now k n }
{
    let [a, v, f, b] = n;
    match k {
        Kind::Summary => Place::Serial,
        Kind::MakeVol | Kind::DropVol => Place::Aggregate(a),
        Kind::Seal | Kind::Unseal | Kind::Usage => Place::Volume(a, v),
        Kind::Create | Kind::Delete | Kind::List => Place::Logical(a, v),
        Kind::Write | Kind::Punch | Kind::Read => Place::Stripe(a, v, group_of(g, f, b)),
        Kind::SetLabel | Kind::Label => Place::Label(a, v),
    }
}

/// Whether the numbers that the kind has are in range: whether `place_of` gives an affinity for a
/// message of this kind with these numbers. It doesn't compute the affinity.
pub fn is_in_range(g: &Geometry, k: Kind, n: [u16; 4]) -> bool
    ensures { result ≡ is_in_range g.now k n }
{
    let [a, v, f, b] = n;
    let volume_there = a < g.aggregates && v < g.volumes;
    match k {
        Kind::Summary => true,
        Kind::MakeVol
        | Kind::DropVol
        | Kind::Seal
        | Kind::Unseal
        | Kind::Usage
        | Kind::List
        | Kind::SetLabel
        | Kind::Label => volume_there,
        Kind::Create | Kind::Delete => volume_there && f < g.files,
        Kind::Write | Kind::Punch | Kind::Read => volume_there && f < g.files && b < g.blocks,
    }
}
