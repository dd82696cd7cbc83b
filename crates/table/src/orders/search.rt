// Which order a search is for: those that it takes, and which of two goes before the other.
ghost use Rattle.std.specs.Prelude.{◌≡◌, ◌-◌, ◌==◌, Bool, true, false};
ghost use Rattle.std.proofs.Common.{rules};
ghost use Rattle.rules.specs.declared.Order.{Order};
ghost use Rattle.rules.specs.Book.{free};
ghost use Rattle.rules.specs.Trading.{contra, prefer};
ghost use Rattle.rules.specs.Quoting.{later, earlier};

use super::place::{comes_after, faces, goes_before};
use rules::Order;
use values::terms::Side;

pub(super) trait Search {
    ghost takes: { Self → Order → Bool };

    ghost prefers: { Self → Order → Order → Bool };

    ghost ends: { Self → Order → Bool };

    fn takes(&self, order: &Order) -> bool
        ensures { result ≡ takes self.now order.now };

    // The order x goes before y.
    fn prefers(&self, x: &Order, y: &Order) -> bool
        ensures { result ≡ prefers self.now x.now y.now };

    // No order that is taken goes before this one, so that the search can end.
    fn ends(&self, order: &Order) -> bool
        requires { takes self.now order.now ≡ true }
        ensures { result ≡ ends self.now order.now };

    ghost passes_free: { (s : Self) → takes s free ≡ false };

    ghost unbeaten: { (s : Self) (x y : Order) → ends s x ≡ true → takes s y ≡ true → prefers s y x ≡ false };
}

// The orders that a taker of this side meets: the best booked price, then the first to arrive.
#[derive(Clone, Copy)]
pub(super) struct Makers {
    pub taker: Side,
}

impl Search for Makers {
    ghost takes = { λ s. contra s.taker };

    ghost prefers = { λ s. prefer s.taker };

    ghost ends = { λ s x. false };

    fn takes(&self, order: &Order) -> bool {
        faces(self.taker, order)
    }

    fn prefers(&self, x: &Order, y: &Order) -> bool {
        goes_before(self.taker, x, y)
    }

    fn ends(&self, _order: &Order) -> bool {
        false
    }

    ghost passes_free = { Prim.search rules };

    ghost unbeaten = { Prim.search rules };
}

// The orders that arrived after this number, in their order. None can have arrived sooner than one number later.
#[derive(Clone, Copy)]
pub(super) struct Later {
    pub arrival: u32,
}

impl Search for Later {
    ghost takes = { λ s. later s.arrival };

    ghost prefers = { λ s. earlier };

    ghost ends = { λ s x. x.arrival - s.arrival == 1 };

    fn takes(&self, order: &Order) -> bool {
        comes_after(self.arrival, order)
    }

    fn prefers(&self, x: &Order, y: &Order) -> bool {
        x.arrival < y.arrival
    }

    fn ends(&self, order: &Order) -> bool {
        order.arrival - self.arrival == 1
    }

    ghost passes_free = { Prim.search rules };

    ghost unbeaten = { Prim.search rules };
}
