//! Parts are put back into the tree, each into its own slot.
ghost use Rattle.std.specs.Prelude.{IfSome};
ghost use Rattle.affinity.specs.Path.{IsPath};
ghost use Rattle.affinity.specs.Place.{path};
ghost use Rattle.parcel.specs.Fits.{Fits, IsKindOf, FitsRoot};
ghost use Rattle.parcel.specs.TakesAndPuts.{Fills, PutsAt};

use super::standings::{aggregate_mut, logical_mut, volume_mut};
use super::{Parcels, Root};
use affinity::{Geometry, Place};

/// Puts a part into its slot, unless there is one.
fn put<T: Drop>(slot: &mut Option<T>, part: T) -> Result<(), T>
    ensures { Fills part result slot.old slot.new }
{
    if slot.is_some() {
        return Err(part);
    }
    *slot = Some(part);
    Ok(())
}

/// Puts parcels back at a place that is out, if they are of its kind; else hands them back as `Err`.
pub(crate) fn put_at(
    root: &mut Option<Root>,
    g: &Geometry,
    place: Place,
    p: Parcels,
) -> Result<(), Parcels>
    requires path { IsPath g.now (path place) }
    requires fits { IfSome root.old (FitsRoot g.now) }
    requires parcels { IsKindOf (path place) p → Fits g.now (path place) p }
    ensures { PutsAt g.now (path place) p result root.old root.new }
{
    match (place, p) {
        (Place::Serial, Parcels::Root(part)) => put(root, part).map_err(Parcels::Root),
        (Place::Aggregate(a), Parcels::Aggr(part)) => match root {
            Some(root) => put(&mut root.aggregates[usize::from(a)], part).map_err(Parcels::Aggr),
            None => Err(Parcels::Aggr(part)),
        },
        (Place::Volume(a, v), Parcels::Vol(part)) => match aggregate_mut(root, usize::from(a)) {
            Some(above) => put(&mut above.volumes[usize::from(v)], part).map_err(Parcels::Vol),
            None => Err(Parcels::Vol(part)),
        },
        (Place::Logical(a, v), Parcels::Logical(part)) => {
            match volume_mut(root, usize::from(a), usize::from(v)) {
                Some(volume) => put(&mut volume.logical, part).map_err(Parcels::Logical),
                None => Err(Parcels::Logical(part)),
            }
        }
        (Place::Stripe(a, v, s), Parcels::Stripe(part)) => {
            match logical_mut(root, usize::from(a), usize::from(v)) {
                Some(above) => {
                    put(&mut above.stripes[usize::from(s)], part).map_err(Parcels::Stripe)
                }
                None => Err(Parcels::Stripe(part)),
            }
        }
        (Place::Label(a, v), Parcels::Label(part)) => {
            match volume_mut(root, usize::from(a), usize::from(v)) {
                Some(volume) => put(&mut volume.label, part).map_err(Parcels::Label),
                None => Err(Parcels::Label(part)),
            }
        }
        (_, other) => Err(other),
    }
}
