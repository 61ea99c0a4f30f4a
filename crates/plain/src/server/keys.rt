//! The key of a block, by which the server's map of blocks is ordered. It is compared as one number: a search of the map compares some
//! twenty of them.

ghost use Rattle.std.specs.Prelude.{◌≡◌, ◌≤◌, ◌+◌, ◌*◌, ◌^◌, refl};
ghost use Rattle.std.specs.Cmp.{eq_by_cmp_equiv, partial_equiv_from_equiv, partial_order_from_total};
ghost use Rattle.std.specs.Ordering.{as_partial_cmp, eq_by_cmp, nat_cmp};
ghost use Rattle.meaning.specs.KeyOrders.{block_order};
ghost use Rattle.plain.specs.Keys.{block_order_total, IsBlockKey};

use std::cmp::Ordering;
use std::marker::Model;

/// How many numbers there are of 16 bits, of which a key has four.
const BASE: u64 = 1 << 16;

/// The key of a block: its aggregate, volume, file and number. The number lies first, so that the compiler reads the four as one.
#[derive(Drop, Clone, Copy)]
pub(super) struct BlockKey {
    pub(super) b: u16,
    pub(super) f: u16,
    pub(super) v: u16,
    pub(super) a: u16,
}

impl Model for BlockKey {
    ghost use Rattle.meaning.specs.State.{BlockKey as FourNumbers};

    ghost Value = { FourNumbers };

    ghost view = { λ key. (key.a, key.v, key.f, key.b) };

    ghost inverse = { λ k. record { a = k.0; v = k.1; f = k.2; b = k.3 } };
}

impl BlockKey {
    /// The four numbers, from the aggregate on.
    pub(super) fn numbers(&self) -> (u16, u16, u16, u16)
        ensures { result ≡ self.now }
    {
        (self.a, self.v, self.f, self.b)
    }

    /// The four as one number, ordered as they are.
    #[inline(always)]
    fn number(&self) -> u64
        ensures value { result ≡ ((self.now.0 * 2 ^ 16 + self.now.1) * 2 ^ 16 + self.now.2) * 2 ^ 16 + self.now.3 }
        ensures short { IsBlockKey self.now }
    {
        ((u64::from(self.a) * BASE + u64::from(self.v)) * BASE + u64::from(self.f)) * BASE
            + u64::from(self.b)
    }
}

/// How two numbers are ordered of which the first isn't above the other. A search passes all keys below the one that it looks for: as this
/// isn't inlined, it does no more for each of them than compare and jump, where it would make an `Ordering` first and then look at that.
#[inline(never)]
fn order_up_to(number: u64, others: u64) -> Ordering
    requires { number ≤ others }
    ensures { result ≡ nat_cmp number others }
{
    if number == others {
        Ordering::Equal
    } else {
        Ordering::Less
    }
}

impl PartialEq for BlockKey {
    ghost eq = { eq_by_cmp block_order };

    ghost laws = { partial_equiv_from_equiv (eq_by_cmp_equiv block_order_total) };

    fn eq(&self, other: &BlockKey) -> bool {
        self.number() == other.number()
    }
}

impl Eq for BlockKey {
    ghost laws = { eq_by_cmp_equiv block_order_total };
}

impl PartialOrd for BlockKey {
    ghost partial_cmp = { as_partial_cmp block_order };

    ghost laws = { partial_order_from_total block_order_total };

    fn partial_cmp(&self, other: &BlockKey) -> Option<Ordering> {
        Some(self.cmp(other))
    }
}

impl Ord for BlockKey {
    ghost cmp = { block_order };

    ghost total = { block_order_total };

    ghost matches_partial_cmp = { λ x y. refl };

    ghost matches_eq = { λ x y. refl };

    #[inline(always)]
    fn cmp(&self, other: &BlockKey) -> Ordering {
        let number = self.number();
        let others = other.number();
        if number > others {
            return Ordering::Greater;
        }
        order_up_to(number, others)
    }
}
