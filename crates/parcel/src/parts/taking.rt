//! Parts are taken out of the tree, where nothing of them, above them or below them is out.
ghost use Rattle.std.specs.Prelude.{IfSome};
ghost use Rattle.affinity.specs.Path.{IsPath};
ghost use Rattle.affinity.specs.Place.{path};
ghost use Rattle.parcel.specs.Fits.{FitsRoot};
ghost use Rattle.parcel.specs.TakesAndPuts.{TakesWhole, TakesAt};

use super::standings::{aggregate_mut, logical_mut, volume_mut};
use super::whole::Whole;
use super::{Parcels, Root};
use affinity::{Geometry, Place};

/// Takes what is in a slot, if it is whole.
fn take<T: Whole>(slot: &mut Option<T>) -> Option<T>
    ensures { TakesWhole T.IsWhole result slot.old slot.new }
{
    if slot.is_whole() { slot.take() } else { None }
}

/// Takes out what lies at a place, where nothing there, above or below is out.
pub(crate) fn take_at(root: &mut Option<Root>, g: &Geometry, place: Place) -> Option<Parcels>
    requires path { IsPath g.now (path place) }
    requires fits { IfSome root.old (FitsRoot g.now) }
    ensures { TakesAt g.now (path place) result root.old root.new }
{
    match place {
        Place::Serial => take(root).map(Parcels::Root),
        Place::Aggregate(a) => {
            let root = root.as_mut()?;
            take(&mut root.aggregates[usize::from(a)]).map(Parcels::Aggr)
        }
        Place::Volume(a, v) => {
            let aggregate = aggregate_mut(root, usize::from(a))?;
            take(&mut aggregate.volumes[usize::from(v)]).map(Parcels::Vol)
        }
        Place::Logical(a, v) => {
            let volume = volume_mut(root, usize::from(a), usize::from(v))?;
            take(&mut volume.logical).map(Parcels::Logical)
        }
        Place::Stripe(a, v, s) => {
            let logical = logical_mut(root, usize::from(a), usize::from(v))?;
            take(&mut logical.stripes[usize::from(s)]).map(Parcels::Stripe)
        }
        Place::Label(a, v) => {
            let volume = volume_mut(root, usize::from(a), usize::from(v))?;
            take(&mut volume.label).map(Parcels::Label)
        }
    }
}
