//! New parcels: no volume is made, and nothing is out. All memory of a tree is allocated here.
ghost use Rattle.std.specs.Prelude.{IfOk};
ghost use Rattle.parcel.specs.NewTree.{IsNewLogical, IsNewVolume, IsNewAggregate, IsNewRoot};

use super::{Aggr, Label, Logical, Root, Vol};
use crate::StripeParcel;
use affinity::Geometry;
use std::alloc::{AllocError, Global};

pub(crate) fn new_root(alloc: Global, g: &Geometry) -> Result<Root, AllocError>
    ensures { IfOk result (IsNewRoot g.now) }
{
    let mut aggregates = Vec::with_capacity(alloc, usize::from(g.aggregates))?;
    for _ in 0..g.aggregates {
        aggregates.push_reserved(Some(new_aggregate(alloc, g)?));
    }
    Ok(Root { aggregates })
}

fn new_aggregate(alloc: Global, g: &Geometry) -> Result<Aggr, AllocError>
    ensures { IfOk result (IsNewAggregate g.now) }
{
    let mut volumes = Vec::with_capacity(alloc, usize::from(g.volumes))?;
    for _ in 0..g.volumes {
        volumes.push_reserved(Some(new_volume(alloc, g)?));
    }
    Ok(Aggr { volumes })
}

fn new_volume(alloc: Global, g: &Geometry) -> Result<Vol, AllocError>
    ensures { IfOk result (IsNewVolume g.now) }
{
    let logical = new_logical(alloc, g)?;
    Ok(Vol {
        made: false,
        sealed: false,
        logical: Some(logical),
        label: Some(Label { bytes: None }),
    })
}

fn new_logical(alloc: Global, g: &Geometry) -> Result<Logical, AllocError>
    ensures { IfOk result (IsNewLogical g.now) }
{
    let mut stripes = Vec::with_capacity(alloc, usize::from(g.stripes))?;
    for _ in 0..g.stripes {
        stripes.push_reserved(Some(StripeParcel::new(alloc, usize::from(g.quota))?));
    }
    Ok(Logical { files: 0, stripes })
}
