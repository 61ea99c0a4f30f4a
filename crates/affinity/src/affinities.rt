//! Affinities as numbers, and which of them are related.
ghost use Rattle.std.specs.Prelude.{◌≡◌, ◌+◌, ◌^◌, ◌<◌, ◌≤◌, ◌||◌};
ghost use Rattle.affinity.specs.Interval.{Interval, IsAffinity, IsAffinityOf, contains, volume_size, aggregate_size, volume_number};
ghost use Rattle.affinity.specs.Path.{Path, are_related, IsPath};
ghost use Rattle.affinity.specs.Place.{path};
ghost use Rattle.affinity.specs.declared.geometry.Geometry.{Geometry};
ghost use Rattle.affinity.specs.declared.limits.TheConstants.{AGGREGATE_AFFINITIES, MOST_AFFINITIES, VOLUME_AFFINITIES};

use crate::{Geometry, Place};
use std::marker::Model;

/// A node of the tree of affinities, as an interval of numbers: its number in preorder, and the first
/// number after its own and those of the nodes below it. A `Place` is the same node by its kind and the
/// numbers of its aggregate, volume and stripe.
#[derive(Clone, Copy, Debug, PartialEq, Eq)]
pub struct Affinity {
    number: u16,
    end: u16,
}

impl Model for Affinity {
    ghost Value = { Interval };

    ghost view = { λ a. record { number = a.number; end = a.end } };

    ghost inverse = { λ i. record { number = i.number; end = i.end } };
}

impl Affinity {
    /// The affinity of a place that the geometry has.
    pub fn at(g: &Geometry, place: Place) -> Affinity
        requires { IsPath g.now (path place) }
        ensures { IsAffinityOf g.now (path place) result }
    {
        match place {
            Place::Serial => Affinity::sized(0, 1 + g.aggregates * aggregate_size(g)),
            Place::Aggregate(a) => Affinity::sized(1 + a * aggregate_size(g), aggregate_size(g)),
            Place::Volume(a, v) => Affinity::sized(volume_number(g, a, v), volume_size(g)),
            Place::Logical(a, v) => Affinity::sized(volume_number(g, a, v) + 1, 1 + g.stripes),
            Place::Stripe(a, v, s) => Affinity::sized(volume_number(g, a, v) + 2 + s, 1),
            Place::Label(a, v) => Affinity::sized(volume_number(g, a, v) + 2 + g.stripes, 1),
        }
    }

    fn sized(number: u16, size: u16) -> Affinity
        requires { number + size < 2 ^ 16 }
        ensures { result ≡ record { number = number; end = number + size } }
    {
        Affinity {
            number,
            end: number + size,
        }
    }

    /// The number of the affinity in preorder.
    pub fn number(&self) -> u16
        ensures { result ≡ self.now.number }
    {
        self.number
    }

    /// The first number after that of this affinity and those of the affinities below it.
    pub fn end(&self) -> u16
        ensures { result ≡ self.now.end }
    {
        self.end
    }

    /// The place of an affinity of the geometry.
    pub fn place(&self, g: &Geometry) -> Place
        requires { IsAffinity g.now self.now }
        ensures { IsAffinityOf g.now (path result) self.now }
    {
        if self.number == 0 {
            return Place::Serial;
        }
        let size = aggregate_size(g);
        let a = (self.number - 1) / size;
        let in_aggregate = (self.number - 1) % size;
        if in_aggregate == 0 {
            return Place::Aggregate(a);
        }
        let size = volume_size(g);
        let v = (in_aggregate - 1) / size;
        let in_volume = (in_aggregate - 1) % size;
        if in_volume == 0 {
            Place::Volume(a, v)
        } else if in_volume == 1 {
            Place::Logical(a, v)
        } else if in_volume < 2 + g.stripes {
            Place::Stripe(a, v, in_volume - 2)
        } else {
            Place::Label(a, v)
        }
    }

    fn contains(self, other: Affinity) -> bool
        ensures { result ≡ contains self other.number }
    {
        self.number <= other.number && other.number < self.end
    }
}

/// Whether two affinities are related (in conflict): whether the number of one lies in the interval
/// of the other. In one geometry this is so exactly if one is the other or lies above it.
pub fn related(a: Affinity, b: Affinity) -> bool
    ensures intervals { result ≡ (contains a b.number || contains b a.number) }
    ensures paths { (g : Geometry) (p q : Path) → IsAffinityOf g p a → IsAffinityOf g q b → result ≡ are_related p q }
{
    a.contains(b) || b.contains(a)
}

/// How many affinities a volume has, not how much it holds: itself, its logical one, the stripes and its label.
fn volume_size(g: &Geometry) -> u16
    ensures value { result ≡ volume_size g.now }
    ensures most { result ≤ VOLUME_AFFINITIES }
{
    3 + g.stripes
}

/// How many affinities an aggregate has: itself, and those of its volumes.
fn aggregate_size(g: &Geometry) -> u16
    ensures value { result ≡ aggregate_size g.now }
    ensures most { result ≤ AGGREGATE_AFFINITIES }
{
    1 + g.volumes * volume_size(g)
}

/// The number in preorder of the affinity of volume `v` of aggregate `a`.
fn volume_number(g: &Geometry, a: u16, v: u16) -> u16
    requires aggregate { a < g.now.aggregates }
    requires volume { v < g.now.volumes }
    ensures value { result ≡ volume_number g.now a v }
    ensures most { result + VOLUME_AFFINITIES ≤ MOST_AFFINITIES }
{
    2 + a * aggregate_size(g) + v * volume_size(g)
}
