// One order is changed while every other stays.
ghost use Rattle.std.specs.Prelude.{◌≡◌, ℕ, ◌-◌, ◌<◌, Bool, true, false, map, length, set, replicate, slice_set};
ghost use Rattle.rules.specs.Book.{free, at, Live, live, lower, priced};
ghost use Rattle.rules.specs.Quoting.{clamp};
ghost use Rattle.table.specs.Away.{On, clamped};
ghost use Rattle.table.specs.Reach.{reach};
ghost use Rattle.table.specs.Tables.{orders_in};

use super::Orders;
use super::place::{clamp, nothing, rests, take_off, widened};
use crate::sides::Away;
use rules::{Bests, Order};

impl Orders {
    pub fn new() -> Orders
        ensures { orders_in result ≡ replicate 64 free }
    {
        Orders {
            places: [nothing(); 64],
            extent: 0,
        }
    }

    // The order at a place; searches give places.
    pub fn order(&self, i: usize) -> Order
        requires { i < 64 }
        ensures { result ≡ at (orders_in self.now) i }
    {
        self.places[i]
    }

    // All places, as they are now.
    pub fn all(&self) -> [Order; 64]
        ensures all { result ≡ orders_in self.now }
        ensures long { length result ≡ 64 }
    {
        self.places
    }

    // An order comes to a place; one of which nothing remains is never put.
    pub fn put(&mut self, i: usize, order: Order)
        requires { (i < 64) × (Live order) }
        ensures { orders_in self.new ≡ slice_set (orders_in self.old) i order }
    {
        self.places[i] = order;
        self.extent = self.extent.max(i + 1);
    }

    // Leaves the free places at its end out of the extent.
    fn draw_in(&mut self)
        ensures { orders_in self.new ≡ orders_in self.old }
    {
        self.extent = self
            .used()
            .iter()
            .rposition(|order| rests(order))
            .map_or(0, |i| i + 1);
    }

    pub fn clear(&mut self, i: usize)
        requires { i < 64 }
        ensures { orders_in self.new ≡ slice_set (orders_in self.old) i free }
    {
        self.places[i] = nothing();
        self.draw_in();
    }

    // Takes q contracts off one order.
    pub fn lower(&mut self, i: usize, q: u32)
        requires { i < 64 }
        ensures { orders_in self.new ≡ slice_set (orders_in self.old) i (lower (at (orders_in self.old) i) q) }
    {
        take_off(&mut self.places[i], q);
        self.draw_in();
    }

    // Gives one resting order other prices.
    pub fn reprice(&mut self, i: usize, booked: u32, displayed: u32)
        requires { (i < 64) × (Live (at (orders_in self.old) i)) }
        ensures { orders_in self.new ≡ slice_set (orders_in self.old) i (priced (at (orders_in self.old) i) booked displayed) }
    {
        let order = &mut self.places[i];
        order.booked = booked;
        order.displayed = displayed;
    }

    // Every order that is booked past the away best is set to it; how far the booked prices reach then.
    pub fn clamp_all(&mut self, away: Away) -> Bests
        ensures clamped { orders_in self.new ≡ map (clamped away) (orders_in self.old) }
        ensures rungs { (R : ℕ → Bool) → On R away → orders_in self.new ≡ map (clamp away.best R) (orders_in self.old) }
        ensures reach { result ≡ reach (orders_in self.new) (length (orders_in self.new)) }
    {
        // No booked price reaches as little: the least and the largest number, which `max` and `min` leave behind.
        let mut reach = Bests {
            bid: 0,
            offer: u32::MAX,
        };
        // By its index: the check lends no part of a field under an invariant to `iter_mut`, and a function over the whole
        // array would need this contract once more.
        for i in 0..self.extent {
            let order = clamp(&mut self.places[i], away);
            reach = widened(&order, reach);
        }
        reach
    }
}
