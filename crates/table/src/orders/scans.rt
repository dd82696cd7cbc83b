// Searches through the places.
ghost use Rattle.std.specs.Prelude.{◌≡◌, ℕ, ◌<◌, ◌≤◌, true, cond, length, take, IfSome};
ghost use Rattle.rules.specs.Book.{at, live, pick, spot, taken, touch, here};
ghost use Rattle.rules.specs.Trading.{contra, prefer};
ghost use Rattle.rules.specs.Quoting.{later, earlier};
ghost use Rattle.rules.specs.States.{named};
ghost use Rattle.table.specs.Places.{FreeFrom, Inside, Vacant, ahead};
ghost use Rattle.table.specs.Tables.{orders_in};

use super::Orders;
use super::place::{beside, displays, has_id, rests};
use super::search::{Later, Makers, Search};
use crate::sides::better;
use rules::{Bests, Order};
use values::terms::Side;

// A place that holds an order is one. Places are counted by a sum, of which the compiler adds many at a time.
fn one(order: &Order) -> u32
    ensures value { result ≡ cond (live order.now) 1 0 }
    ensures bound { result ≤ 1 }
{
    u32::from(rests(order))
}

impl Orders {
    // The places up to the extent; no order rests in another.
    pub fn used(&self) -> &[Order]
        ensures places { result.now ≡ take self.now.extent (orders_in self.now) }
        ensures beyond { FreeFrom (length result.now) (orders_in self.now) }
    {
        &self.places[..self.extent]
    }

    // The place k is taken before the place that the search holds.
    fn leads<S: Search>(&self, search: &S, k: usize, held: Option<usize>) -> bool
        requires { (k < 64) × (Inside held) }
        ensures { result ≡ ahead (S.takes search.now) (S.prefers search.now) (orders_in self.now) k held }
    {
        if !search.takes(&self.places[k]) {
            return false;
        }
        match held {
            None => true,
            Some(i) => search.prefers(&self.places[k], &self.places[i]),
        }
    }

    // The place of the order that goes before the others that the search takes.
    fn foremost<S: Search>(&self, search: &S) -> Option<usize>
        ensures picks { result ≡ pick (S.takes search.now) (S.prefers search.now) (orders_in self.now) (length (orders_in self.now)) }
        ensures inside { Inside result }
        ensures takes { IfSome result (λ i. S.takes search.now (at (orders_in self.now) i) ≡ true) }
    {
        let mut held: Option<usize> = None;
        for (i, order) in self.used().iter().enumerate() {
            if self.leads(search, i, held) {
                if search.ends(order) {
                    return Some(i);
                }
                held = Some(i);
            }
        }
        held
    }

    // The place of the order that a taker of this side meets next: the best booked price, then the first to arrive.
    pub fn best_contra(&self, side: Side) -> Option<usize>
        ensures best { result ≡ pick (contra side) (prefer side) (orders_in self.now) (length (orders_in self.now)) }
        ensures inside { Inside result }
        ensures faces { IfSome result (λ i. contra side (at (orders_in self.now) i) ≡ true) }
    {
        self.foremost(&Makers { taker: side })
    }

    // The place of the order that arrived next after this number.
    pub fn next_after(&self, arrival: u32) -> Option<usize>
        ensures next { result ≡ pick (later arrival) earlier (orders_in self.now) (length (orders_in self.now)) }
        ensures inside { Inside result }
        ensures later { IfSome result (λ i. later arrival (at (orders_in self.now) i) ≡ true) }
    {
        self.foremost(&Later { arrival })
    }

    // The place of the resting order with this id.
    pub fn find(&self, id: u32) -> Option<usize>
        ensures found { result ≡ spot (named id) (orders_in self.now) }
        ensures inside { Inside result }
    {
        self.used().iter().position(|order| has_id(id, order))
    }

    // A place that holds no order.
    pub fn vacancy(&self) -> Option<usize>
        ensures { Vacant (orders_in self.now) result }
    {
        for (i, order) in self.used().iter().enumerate() {
            if !rests(order) {
                return Some(i);
            }
        }
        if self.extent < 64 {
            Some(self.extent)
        } else {
            None
        }
    }

    // How many orders rest.
    pub fn count(&self) -> u32
        ensures { result ≡ taken (orders_in self.now) }
    {
        self.places.iter().map(|order| one(order)).sum()
    }

    // The best displayed price of a side, 0 where none is displayed.
    pub fn touch(&self, side: Side) -> u32
        ensures { result ≡ touch side (orders_in self.now) }
    {
        self.places
            .iter()
            .fold(0, |best, order| better(side, displays(side, order), best))
    }

    // The best displayed bid and offer; 0 where none is displayed.
    pub fn best(&self) -> Bests
        ensures { result ≡ here (orders_in self.now) }
    {
        let none = Bests { bid: 0, offer: 0 };
        self.used()
            .iter()
            .fold(none, |best, order| beside(order, best))
    }
}
