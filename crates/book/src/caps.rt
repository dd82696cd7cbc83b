// Where an order may trade or rest.
ghost use Rattle.std.specs.Prelude.{◌≡◌};
ghost use Rattle.rules.specs.Trading.{within as in_cap, fits};

use rules::{Bests, Order, Terms};
use table::sides::{met, within};

// The price is within the limit and the protection limit.
pub fn in_cap(terms: &Terms, price: u32) -> bool
    ensures { result ≡ in_cap terms.now price }
{
    within(terms.side, terms.limit, price) && within(terms.side, terms.protection, price)
}

// It is, and not through the away best.
pub fn suits(best: Bests, taker: &Order, price: u32) -> bool
    ensures { result ≡ fits best taker.now price }
{
    in_cap(&taker.terms, price) && within(taker.terms.side, met(best, taker.terms.side), price)
}
