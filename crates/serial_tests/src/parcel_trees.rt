//! Parts of a small tree (`SMALL`: one volume in two stripes) are lent and restored.
ghost use Rattle.std.specs.Prelude.{[], ◌∷◌};
ghost use Rattle.affinity.specs.Interval.{IsAffinityOf};
ghost use Rattle.affinity.specs.Place.{path_of_kind};

use crate::assertions::{assert_equal, assert_true};
use crate::common::SMALL;
use affinity::{Affinity, Geometry, Kind, place_of};
use parcel::{Parcels, Standing, StripeParcel, Tree};
use std::alloc::{AllocError, Global};
use std::process::Abort;
use std::test::Fail;

// A tree, by a second try where memory was refused at the first: `tests/run calls` runs `beside_a_stripe_that_is_out` with each request for
// memory refused in turn, and it has to pass.
fn new_tree(alloc: Global, g: Geometry) -> Result<Tree, AllocError> {
    match Tree::new(alloc, g) {
        Ok(tree) => Ok(tree),
        Err(_) => Tree::new(alloc, g),
    }
}

// The affinity of a message of this kind at volume 0, file 0 and this block.
fn affinity_of(rt: &impl Abort, tree: &Tree, kind: Kind, block: u16) -> Affinity
    ensures { IsAffinityOf tree.now.geometry (path_of_kind tree.now.geometry kind (0 ∷ 0 ∷ 0 ∷ block ∷ [])) result }
{
    place_of(&tree.geometry(), kind, [0, 0, 0, block]).expect(rt, "a place of the small geometry")
}

// Lends what lies at the affinity of a message.
fn lent(rt: &impl Abort, tree: &mut Tree, kind: Kind, block: u16) -> Option<(Standing, Parcels)> {
    let a = affinity_of(rt, tree, kind, block);
    tree.lend(a)
}

// Lends the stripe of a block of file 0.
fn lend_stripe(rt: &impl Abort, tree: &mut Tree, block: u16) -> StripeParcel {
    match lent(rt, tree, Kind::Read, block) {
        Some((_, Parcels::Stripe(stripe))) => stripe,
        _ => panic!(rt; "no stripe"),
    }
}

// Asserts that for each row, a kind, a block and `out`, the parcels at the affinity of its message are lent, and stay out; but if `out`, it
// is refused, as some are out already.
fn assert_lent(rt: &impl Abort, tree: &mut Tree, rows: &[(Kind, u16, bool)]) {
    for (kind, block, out) in rows {
        assert_equal(rt, lent(rt, tree, *kind, *block).is_none(), *out);
    }
}

// While the stripe of block 0 is out: a kind, a block, and whether some of the parcels at that message's affinity are out. Blocks 0 and 2
// lie in one stripe, block 1 in the other, which the row before the last lends.
const BESIDE: [(Kind, u16, bool); 9] = [
    (Kind::Read, 0, true),
    (Kind::Read, 2, true),
    (Kind::List, 0, true),
    (Kind::Usage, 0, true),
    (Kind::MakeVol, 0, true),
    (Kind::Summary, 0, true),
    (Kind::Label, 0, false),
    (Kind::Read, 1, false),
    (Kind::Read, 1, true),
];

#[test]
fn beside_a_stripe_that_is_out(rt: HostRuntime) -> Result<(), Fail> {
    let mut tree = new_tree(rt.alloc(), Geometry::new(SMALL)?)?;
    let _first = lend_stripe(&rt, &mut tree, 0);
    assert_lent(&rt, &mut tree, &BESIDE);
    Ok(())
}

/// The same, while nothing is out at first: the first row lends the whole tree.
const ALL_OUT: [(Kind, u16, bool); 3] = [
    (Kind::Summary, 0, false),
    (Kind::Summary, 0, true),
    (Kind::Read, 0, true),
];

#[test]
fn all_is_out_with_the_server(rt: HostRuntime) -> Result<(), Fail> {
    let mut tree = new_tree(rt.alloc(), Geometry::new(SMALL)?)?;
    assert_lent(&rt, &mut tree, &ALL_OUT);
    Ok(())
}

#[test]
fn a_stripe_is_restored_at_its_own_place_only(rt: HostRuntime) -> Result<(), Fail> {
    let mut tree = new_tree(rt.alloc(), Geometry::new(SMALL)?)?;
    let stripe = lend_stripe(&rt, &mut tree, 0);
    let volume = affinity_of(&rt, &tree, Kind::Usage, 0);
    let back = refused_at(&mut tree, volume, stripe).expect(&rt, "handed back");
    assert_true(&rt, matches!(back, Parcels::Stripe(_)));
    assert_lent(&rt, &mut tree, &[(Kind::Usage, 0, true)]);
    Ok(())
}

// What the refused restore of a stripe at the affinity of a volume hands back.
fn refused_at(tree: &mut Tree, volume: Affinity, stripe: StripeParcel) -> Option<Parcels>
    requires { IsAffinityOf tree.old.geometry (0 ∷ 0 ∷ []) volume }
{
    tree.restore(volume, Parcels::Stripe(stripe)).err()
}
