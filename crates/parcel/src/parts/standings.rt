//! What a message sees of the nodes above its place.
ghost use Rattle.std.specs.Prelude.{◌≡◌, [], ◌∷◌, None, option_copied, slice_index_or};
ghost use Rattle.std.specs.Borrow.{sem};
ghost use Rattle.std.specs.Option.{option_copied_mut};
ghost use Rattle.affinity.specs.Path.{volume, logical};
ghost use Rattle.affinity.specs.Place.{path};
ghost use Rattle.parcel.specs.Lends.{lends_child, lends_aggregate, lends_volume, lends_logical};
ghost use Rattle.parcel.specs.Lends.{aggregate_of_tree, volume_of_tree, logical_of_tree};
ghost use Rattle.parcel.specs.Nodes.{child_nodes, root_nodes, volume_nodes, node_made, node_sealed, node_files};
ghost use Rattle.parcel.specs.Tree.{standing_at};

use super::{Aggr, Logical, Root, Standing, Vol};
use affinity::Place;

const NOTHING_SEEN: Standing = Standing {
    made: false,
    sealed: false,
    files: 0,
};

/// The standing at a place. For what is out it has `false` and 0.
pub(crate) fn standing_at(root: &Option<Root>, place: Place) -> Standing
    ensures { result ≡ standing_at (path place) (child_nodes root_nodes root.now) }
{
    match place {
        Place::Stripe(a, v, _) => standing_in(root, a, v),
        Place::Logical(a, v) | Place::Label(a, v) => Standing {
            files: 0,
            ..standing_in(root, a, v)
        },
        Place::Serial | Place::Aggregate(_) | Place::Volume(_, _) => NOTHING_SEEN,
    }
}

/// The flags of a volume, and its files.
fn standing_in(root: &Option<Root>, a: u16, v: u16) -> Standing
    ensures made { result.made ≡ node_made (child_nodes root_nodes root.now (volume a v)) }
    ensures sealed { result.sealed ≡ node_sealed (child_nodes root_nodes root.now (volume a v)) }
    ensures files { result.files ≡ node_files (child_nodes root_nodes root.now (logical a v)) }
{
    match volume_at(root, usize::from(a), usize::from(v)) {
        None => NOTHING_SEEN,
        Some(volume) => Standing {
            made: volume.made,
            sealed: volume.sealed,
            files: files_of(volume),
        },
    }
}

/// The files of a volume, file f as bit f; none if its Volume Logical is out.
pub(crate) fn files_of(volume: &Vol) -> u64
    ensures { result ≡ node_files (volume_nodes volume.now (0 ∷ [])) }
{
    match &volume.logical {
        None => 0,
        Some(logical) => logical.files,
    }
}

/// A volume, where it and the nodes above it are in.
pub(crate) fn volume_at(root: &Option<Root>, a: usize, v: usize) -> Option<&Vol>
    ensures { option_copied result ≡ volume_of_tree root.now a v }
{
    root.as_ref()?
        .aggregates
        .get(a)?
        .as_ref()?
        .volumes
        .get(v)?
        .as_ref()
}

/// An aggregate for writing, where it and the root are in.
pub(super) fn aggregate_mut(root: &mut Option<Root>, a: usize) -> Option<&mut Aggr>
    ensures* writes_back { sem 𝓛 (lends_aggregate root.entry a result) }
    ensures value { option_copied_mut result ≡ aggregate_of_tree root.old a }
{
    child_mut(&mut root.as_mut()?.aggregates, a)
}

/// A volume for writing, where it and the nodes above it are in.
pub(crate) fn volume_mut(root: &mut Option<Root>, a: usize, v: usize) -> Option<&mut Vol>
    ensures* writes_back { sem 𝓛 (lends_volume root.entry a v result) }
    ensures value { option_copied_mut result ≡ volume_of_tree root.old a v }
{
    child_mut(&mut aggregate_mut(root, a)?.volumes, v)
}

/// The Volume Logical of a volume for writing, where it and the nodes above it are in.
pub(super) fn logical_mut(root: &mut Option<Root>, a: usize, v: usize) -> Option<&mut Logical>
    ensures* writes_back { sem 𝓛 (lends_logical root.entry a v result) }
    ensures value { option_copied_mut result ≡ logical_of_tree root.old a v }
{
    volume_mut(root, a, v)?.logical.as_mut()
}

/// A child of a row, where it is in.
fn child_mut<T>(row: &mut Vec<Option<T>>, i: usize) -> Option<&mut T>
    ensures* writes_back { sem 𝓛 (lends_child T.row row.entry i result) }
    ensures value { option_copied_mut result ≡ slice_index_or row.old.items i None }
{
    row.get_mut(i)?.as_mut()
}
