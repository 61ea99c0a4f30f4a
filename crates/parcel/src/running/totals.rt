//! How much volumes hold.

ghost use Rattle.std.specs.Prelude.{◌≡◌, ◌+◌, ◌<◌, ◌≤◌, ◌^◌, IfSome};
ghost use Rattle.parcel.specs.Fits.{FitsAggregate, FitsLogical, FitsRoot, FitsVolume};
ghost use Rattle.parcel.specs.Shown.{blocks_of, aggregate_facts, child_facts, root_facts, volume_facts};
ghost use Rattle.stripe.specs.Stripe.{StripeRule};
ghost use Rattle.parcel.specs.Totals.{block_total, entry_count, sum_totals, totals_of};
ghost use Rattle.affinity.specs.declared.limits.TheConstants.{MOST_QUOTA};

use crate::{Aggr, Logical, Root, StripeParcel, Vol};
use affinity::Geometry;

/// How many volumes are made, and how many files and blocks they have.
#[derive(Clone, Copy)]
pub(crate) struct Totals {
    pub(crate) volumes: u32,
    pub(crate) files: u32,
    pub(crate) blocks: u32,
}

const NOTHING: Totals = Totals {
    volumes: 0,
    files: 0,
    blocks: 0,
};

impl Totals {
    fn plus(self, more: Totals) -> Totals
        requires { (self.volumes + more.volumes < 2 ^ 32) × (self.files + more.files < 2 ^ 32) × (self.blocks + more.blocks < 2 ^ 32) }
        ensures { result ≡ record {
          volumes = self.volumes + more.volumes;
          files = self.files + more.files;
          blocks = self.blocks + more.blocks;
        } }
    {
        Totals {
            volumes: self.volumes + more.volumes,
            files: self.files + more.files,
            blocks: self.blocks + more.blocks,
        }
    }
}

/// How many blocks lie in a stripe: none where it is lent.
fn entry_count(node: &Option<StripeParcel>) -> u32
    requires { IfSome node.now (λ p. p.quota ≤ MOST_QUOTA) }
    ensures count { result ≡ entry_count node.now }
    ensures kept { IfSome node.now StripeRule }
{
    match node {
        Some(stripe) => stripe.len() as u32,
        None => 0,
    }
}

/// How many blocks the stripes of a volume have.
fn block_count(logical: &Logical, g: &Geometry) -> u32
    requires { FitsLogical g.now logical.now }
    ensures { result ≡ block_total g.now (blocks_of g.now logical.now.stripes.items) }
{
    let mut total = 0;
    for s in 0..logical.stripes.len() {
        total += entry_count(&logical.stripes[s]);
    }
    total
}

/// How much a volume holds; files and blocks of a part that is out count as none.
pub(crate) fn volume_totals(volume: &Vol, g: &Geometry) -> Totals
    requires { FitsVolume g.now volume.now }
    ensures { result ≡ totals_of g.now (volume_facts g.now volume.now) }
{
    let (files, blocks) = match &volume.logical {
        Some(logical) => (logical.files.count_ones(), block_count(logical, g)),
        None => (0, 0),
    };
    Totals {
        volumes: u32::from(volume.made),
        files,
        blocks,
    }
}

/// How much a volume holds: nothing where it is lent.
fn volume_in(node: &Option<Vol>, g: &Geometry) -> Totals
    requires { IfSome node.now (FitsVolume g.now) }
    ensures { result ≡ totals_of g.now (child_facts (volume_facts g.now) node.now) }
{
    match node {
        Some(volume) => volume_totals(volume, g),
        None => NOTHING,
    }
}

/// How much the volumes of an aggregate hold.
fn aggregate_totals(aggregate: &Aggr, g: &Geometry) -> Totals
    requires { FitsAggregate g.now aggregate.now }
    ensures { result ≡ sum_totals g.now.volumes (λ v. totals_of g.now (aggregate_facts g.now aggregate.now v)) }
{
    let mut totals = NOTHING;
    for v in 0..aggregate.volumes.len() {
        totals = totals.plus(volume_in(&aggregate.volumes[v], g));
    }
    totals
}

/// How much the volumes of an aggregate hold: nothing where it is lent.
fn aggregate_in(node: &Option<Aggr>, g: &Geometry) -> Totals
    requires { IfSome node.now (FitsAggregate g.now) }
    ensures { result ≡ sum_totals g.now.volumes (λ v. totals_of g.now (child_facts (λ r. aggregate_facts g.now r v) node.now)) }
{
    match node {
        Some(aggregate) => aggregate_totals(aggregate, g),
        None => NOTHING,
    }
}

/// How much all volumes hold.
pub(crate) fn root_totals(root: &Root, g: &Geometry) -> Totals
    requires { FitsRoot g.now root.now }
    ensures { result ≡ sum_totals g.now.aggregates (λ a. sum_totals g.now.volumes (λ v. totals_of g.now (root_facts g.now root.now a v))) }
{
    let mut totals = NOTHING;
    for a in 0..root.aggregates.len() {
        totals = totals.plus(aggregate_in(&root.aggregates[a], g));
    }
    totals
}
