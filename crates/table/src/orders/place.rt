// What a place holds, and what is asked of one order.
ghost use Rattle.std.specs.Prelude.{◌≡◌, ℕ};
ghost use Rattle.rules.specs.Book.{free, live, shown, lower, priced};
ghost use Rattle.rules.specs.Trading.{contra, prefer};
ghost use Rattle.rules.specs.Quoting.{later};
ghost use Rattle.rules.specs.States.{named};
ghost use Rattle.table.specs.Away.{clamped, clamped_as};
ghost use Rattle.table.specs.Reach.{beside, widened};

use crate::sides::{Away, behind, better, beyond, met, within};
use rules::{Bests, Order, Terms};
use values::terms::{Kind, Side};

// What a place without an order holds.
pub fn nothing() -> Order
    ensures { result ≡ free }
{
    Order {
        arrival: 0,
        terms: Terms {
            id: 0,
            firm: 0,
            side: Side::Buy,
            kind: Kind::Limit,
            limit: 0,
            protection: 0,
            size: 0,
        },
        booked: 0,
        displayed: 0,
        remaining: 0,
    }
}

pub fn rests(o: &Order) -> bool
    ensures { result ≡ live o.now }
{
    0 < o.remaining
}

// It rests on the other side.
pub fn faces(side: Side, o: &Order) -> bool
    ensures { result ≡ contra side o.now }
{
    rests(o) && side != o.terms.side
}

// A taker of this side trades with x before y. No order of `Order`: which booked price is better depends on the side.
pub fn goes_before(side: Side, x: &Order, y: &Order) -> bool
    ensures { result ≡ prefer side x.now y.now }
{
    beyond(side, x.booked, y.booked) || (x.booked == y.booked && x.arrival < y.arrival)
}

// It rests, and arrived after this number.
pub fn comes_after(arrival: u32, o: &Order) -> bool
    ensures { result ≡ later arrival o.now }
{
    arrival < o.arrival && rests(o)
}

pub fn has_id(id: u32, o: &Order) -> bool
    ensures { result ≡ named id o.now }
{
    o.terms.id == id && rests(o)
}

// The price that it shows on this side.
pub fn displays(side: Side, o: &Order) -> u32
    ensures { result ≡ shown side o.now }
{
    if rests(o) && side == o.terms.side {
        o.displayed
    } else {
        0
    }
}

// The best displayed prices, with that of one order more.
pub fn beside(o: &Order, best: Bests) -> Bests
    ensures { result ≡ beside o.now best }
{
    if !rests(o) {
        return best;
    }
    match o.terms.side {
        Side::Buy => Bests {
            bid: better(Side::Buy, o.displayed, best.bid),
            ..best
        },
        Side::Sell => Bests {
            offer: better(Side::Sell, o.displayed, best.offer),
            ..best
        },
    }
}

// The most aggressive booked prices, with that of one order more. Not `beside` again: there 0 is none, here it is the least.
pub fn widened(o: &Order, reach: Bests) -> Bests
    ensures { result ≡ widened o.now reach }
{
    if !rests(o) {
        return reach;
    }
    match o.terms.side {
        Side::Buy => Bests {
            bid: reach.bid.max(o.booked),
            ..reach
        },
        Side::Sell => Bests {
            offer: reach.offer.min(o.booked),
            ..reach
        },
    }
}

// Takes q contracts off an order, and frees its place where nothing is left.
pub fn take_off(o: &mut Order, q: u32)
    ensures { o.new ≡ lower o.old q }
{
    if q < o.remaining {
        o.remaining -= q;
    } else {
        *o = nothing();
    }
}

// Sets an order that is booked past the away best to it; the order as it is then.
pub fn clamp(order: &mut Order, away: Away) -> Order
    ensures clamped { order.new ≡ clamped away order.old }
    ensures now { result ≡ order.new }
{
    // Each side by itself, so that a scan over the places decides it once an order.
    match order.terms.side {
        Side::Buy => clamp_as(Side::Buy, order, away),
        Side::Sell => clamp_as(Side::Sell, order, away),
    }
    *order
}

fn clamp_as(side: Side, order: &mut Order, away: Away)
    ensures { order.new ≡ clamped_as side away order.old }
{
    let best = met(away.best, side);
    if !within(side, best, order.booked) {
        order.booked = best;
        order.displayed = behind(away, side);
    }
}
