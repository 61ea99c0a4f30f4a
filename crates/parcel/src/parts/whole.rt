//! Whether a part and all below it are in: nothing of it is lent.
ghost use Rattle.std.specs.Prelude.{◌↔◌, IsTrue};
ghost use Rattle.std.specs.List.{AllByRecursion};
ghost use Rattle.parcel.specs.Whole.{IsWholeChild, IsWholeLogical, IsWholeVolume, IsWholeAggregate, IsWholeRoot};

use super::{Aggr, Label, Logical, Root, Vol};
use crate::StripeParcel;

pub(super) trait Whole {
    ghost IsWhole: { Self → Type 0 };

    fn is_whole(&self) -> bool
        ensures { IsTrue result ↔ IsWhole self.now };
}

impl<T: Whole> Whole for Option<T> {
    ghost IsWhole = { IsWholeChild T.IsWhole };

    fn is_whole(&self) -> bool {
        match self {
            None => false,
            Some(part) => part.is_whole(),
        }
    }
}

impl<T: Whole> Whole for Vec<T> {
    ghost IsWhole = { λ row. AllByRecursion T.IsWhole row.items };

    fn is_whole(&self) -> bool {
        self.iter().all(|child| child.is_whole())
    }
}

impl Whole for Root {
    ghost IsWhole = { IsWholeRoot };

    fn is_whole(&self) -> bool {
        self.aggregates.is_whole()
    }
}

impl Whole for Aggr {
    ghost IsWhole = { IsWholeAggregate };

    fn is_whole(&self) -> bool {
        self.volumes.is_whole()
    }
}

impl Whole for Vol {
    ghost IsWhole = { IsWholeVolume };

    fn is_whole(&self) -> bool {
        self.logical.is_whole() && self.label.is_whole()
    }
}

impl Whole for Logical {
    ghost IsWhole = { IsWholeLogical };

    fn is_whole(&self) -> bool {
        self.stripes.is_whole()
    }
}

impl Whole for StripeParcel {
    ghost IsWhole = { λ p. Unit {0} };

    fn is_whole(&self) -> bool {
        true
    }
}

impl Whole for Label {
    ghost IsWhole = { λ l. Unit {0} };

    fn is_whole(&self) -> bool {
        true
    }
}
