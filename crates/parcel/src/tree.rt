//! The tree of a server: what lies at an affinity is lent out of it and restored.
ghost use Rattle.std.specs.Prelude.{◌≡◌, [], IfOk, IfNone, IfSome, OnOk, IfErr};
ghost use Rattle.affinity.specs.Interval.{IsAffinity, IsAffinityOf};
ghost use Rattle.affinity.specs.Path.{Path};
ghost use Rattle.meaning.specs.State.{empty};
ghost use Rattle.parcel.specs.Fits.{Fits, IsKindOf};
ghost use Rattle.parcel.specs.Nodes.{SameNodes};
ghost use Rattle.parcel.specs.Tree.{TreeView, tree_nodes, state_in, IsIn, HasGap, IsOut, LendsAt, RestoresAt};

use crate::parts::{new_root, put_at, standing_at, take_at};
use crate::{Parcels, Root, Standing};
use affinity::{Affinity, Geometry};
use std::alloc::{AllocError, Global};
use std::marker::Model;

/// All that a server holds, of which parts may be out.
#[derive(Drop)]
pub struct Tree {
    pub(crate) geometry: Geometry,
    pub(crate) root: Option<Root>,
}

impl Model for Tree {
    ghost use Rattle.parcel.specs.Tree.{TreeView, IsWellFormed};

    ghost Value = { TreeView };

    ghost view = { λ t. record { geometry = t.geometry; root = t.root } };

    ghost invariant = { λ t. IsWellFormed (record { geometry = t.geometry; root = t.root }) };
}

impl Tree {
    /// The tree in which nothing is made and nothing is out.
    pub fn new(alloc: Global, g: Geometry) -> Result<Tree, AllocError>
        ensures geometry { IfOk result (λ t. t.geometry ≡ g) }
        ensures empty { IfOk result (λ t. state_in t ≡ empty) }
        ensures all_in { IfOk result (λ t. IsIn g [] (tree_nodes t)) }
    {
        let root = new_root(alloc, &g)?;
        Ok(Tree {
            geometry: g,
            root: Some(root),
        })
    }

    /// The geometry.
    pub fn geometry(&self) -> Geometry
        ensures { result ≡ self.now.geometry }
    {
        self.geometry
    }

    /// Takes out what lies at an affinity of the tree's geometry and below it. With it goes the standing,
    /// a copy of what a message there sees of the nodes above. `None`, and nothing changes, where
    /// something at the affinity, above it or below it is out already.
    pub fn lend(&mut self, a: Affinity) -> Option<(Standing, Parcels)>
        requires affinity { IsAffinity self.old.geometry a }
        ensures geometry { self.new.geometry ≡ self.old.geometry }
        ensures none { IfNone result ((p : Path) → IsAffinityOf self.old.geometry p a →
            HasGap self.old.geometry p (tree_nodes self.old) × SameNodes (tree_nodes self.old) (tree_nodes self.new)) }
        ensures some { IfSome result (λ r. (p : Path) → IsAffinityOf self.old.geometry p a →
            LendsAt self.old.geometry p r.0 r.1 (tree_nodes self.old) (tree_nodes self.new)) }
    {
        let g = self.geometry;
        let place = a.place(&g);
        let standing = standing_at(&self.root, place);
        let parcels = take_at(&mut self.root, &g, place)?;
        Some((standing, parcels))
    }

    /// Puts parcels back at an affinity of the tree's geometry. If they are of the affinity's kind, they have to be whole (nothing below
    /// them is out) and to fit this geometry. Parcels of another kind are handed back as `Err`, and nothing changes; so are all where the
    /// affinity's own node is in, or where the node above it is out too.
    pub fn restore(&mut self, a: Affinity, p: Parcels) -> Result<(), Parcels>
        requires affinity { IsAffinity self.old.geometry a }
        requires fits { (q : Path) → IsAffinityOf self.old.geometry q a → IsKindOf q p → Fits self.old.geometry q p }
        ensures geometry { self.new.geometry ≡ self.old.geometry }
        ensures ok { OnOk result ((q : Path) → IsAffinityOf self.old.geometry q a →
            RestoresAt self.old.geometry q p (tree_nodes self.old) (tree_nodes self.new)) }
        ensures back { IfErr result (λ back. back ≡ p) }
        ensures err { IfErr result (λ back. (q : Path) → IsAffinityOf self.old.geometry q a →
            IsOut q (tree_nodes self.old) → IsKindOf q p → ⊥) }
        ensures same { IfErr result (λ back. SameNodes (tree_nodes self.old) (tree_nodes self.new)) }
    {
        let g = self.geometry;
        let place = a.place(&g);
        put_at(&mut self.root, &g, place, p)
    }
}
