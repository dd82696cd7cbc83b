// Turns: an order that rests trades again, and comes to rest again.
ghost use Rattle.std.specs.Prelude.{◌≡◌, ℕ, ◌+◌, ◌<◌, ◌≤◌, Bool, true, not, ◌&&◌, nat_le, count_by, length, set, slice_set};
ghost use Rattle.rules.specs.Book.{free, at, Live, taken};
ghost use Rattle.rules.specs.Trading.{trade};
ghost use Rattle.rules.specs.Routing.{nowhere};
ghost use Rattle.rules.specs.Resting.{turn};
ghost use Rattle.rules.specs.Quoting.{later, turns, quote};
ghost use Rattle.records.specs.Contents.{used, capacity, Grown};
ghost use Rattle.table.specs.Away.{On};
ghost use Rattle.table.specs.Places.{Inside};
ghost use Rattle.table.specs.Reach.{widened};
ghost use Rattle.book.specs.Books.{orders_of};
ghost use Rattle.book.specs.Rests.{Came, turned};
ghost use Rattle.book.specs.Idle.{Bounds, stays_as, idle_as, idle_on, Due, NextDue};

use super::{prices_of, rest_as};
use crate::book::Book;
use crate::caps::suits;
use records::AppendList;
use rules::{Bests, Order};
use table::orders::place::{comes_after, widened};
use table::sides::{Away, beyond, met};
use values::reports::Report;
use values::terms::Side;

// What a turn looks at: the away market, and the most aggressive booked prices here.
// That no booked price is past the reach is a clause, not a ghost field: it speaks of the book as well, and a turn breaks it
// until the reach is widened.
#[derive(Clone, Copy)]
struct Market {
    away: Away,
    reach: Bests,
}

impl Market {
    // An order of this side would rest at the prices that it has.
    fn stays_as(self, side: Side, order: &Order) -> bool
        ensures { result ≡ stays_as side self.away order.now }
    {
        rest_as(side, self.away, &order.terms) == Some(prices_of(order))
    }

    // No contra order is booked at a price as good as its own, and it stays where it rests, as before the call.
    fn is_idle_as(self, side: Side, before: &Order, order: &Order) -> bool
        ensures { result ≡ idle_as side self before.now order.now }
    {
        prices_of(before) == prices_of(order)
            && (beyond(side, order.booked, met(self.reach, side)) && self.stays_as(side, order))
    }

    // It has nothing to do in its turn.
    fn is_idle(self, before: &Order, order: &Order) -> bool
        ensures { result ≡ idle_on self before.now order.now }
    {
        // Each side by itself, so that a scan over the places decides it once an order.
        match order.terms.side {
            Side::Buy => self.is_idle_as(Side::Buy, before, order),
            Side::Sell => self.is_idle_as(Side::Sell, before, order),
        }
    }

    // It arrived after `last` and by `end`, and is not idle.
    fn is_due(self, last: u32, end: u32, before: &Order, order: &Order) -> bool
        ensures due { result ≡ (nat_le order.now.arrival end && (later last order.now && not (idle_on self before.now order.now))) }
        ensures number { order.now.arrival ≤ 4294967295 }
    {
        order.arrival <= end && (comes_after(last, order) && !self.is_idle(before, order))
    }
}

impl Book {
    // The smallest arrival number after `last` of an order that may have something to do in its turn.
    fn first_due(&self, last: u32, market: Market, before: &[Order; 64]) -> Option<u32>
        ensures { Due market last before.now (orders_of self.now) result }
    {
        let mut due = None;
        // The last number before `due`, or of all: one comparison decides most orders.
        let mut end = u32::MAX;
        for (order, before) in self.orders.used().iter().zip(before) {
            if market.is_due(last, end, before, order) {
                due = Some(order.arrival);
                end = order.arrival - 1;
            }
        }
        due
    }

    // The place of the next order that may have something to do in its turn. Those before it would stay as they are, so
    // that they need no turn.
    fn next_due(&self, last: u32, market: Market, before: &[Order; 64]) -> Option<usize>
        ensures next { NextDue market last before.now (orders_of self.now) result }
        ensures inside { Inside result }
    {
        let due = self.first_due(last, market, before)?;
        self.orders.next_after(due - 1)
    }

    // Trades, where some booked price may suit the taker.
    fn trade_within(
        &mut self,
        market: Market,
        taker: Order,
        reports: &mut AppendList<'_, Report>,
    ) -> Order
        requires { (used reports.old + length (trade (length (orders_of self.old)) market.away.best taker (orders_of self.old)).out ≤ capacity reports.old) × (Bounds market.reach (orders_of self.old)) }
        ensures taker { result ≡ (trade (length (orders_of self.old)) market.away.best taker (orders_of self.old)).taker }
        ensures book { orders_of self.new ≡ (trade (length (orders_of self.old)) market.away.best taker (orders_of self.old)).book }
        ensures reported { Grown reports.old (trade (length (orders_of self.old)) market.away.best taker (orders_of self.old)).out reports.new }
    {
        let best = market.away.best;
        if suits(best, &taker, met(market.reach, taker.terms.side)) {
            self.trade(best, taker, reports)
        } else {
            taker
        }
    }

    // The order at this place has its turn; `before` has its prices before the call. It is never routed.
    fn turn(
        &mut self,
        market: Market,
        i: usize,
        before: &Order,
        reports: &mut AppendList<'_, Report>,
    )
        requires { (i < 64) × ((Live (at (orders_of self.old) i)) × ((used reports.old + taken (orders_of self.old) + 1 ≤ capacity reports.old) × (Bounds market.reach (orders_of self.old)))) }
        ensures turned { (R : ℕ → Bool) → On R market.away → Came (turned (turn market.away.best R nowhere i before.now (at (orders_of self.old) i) (slice_set (orders_of self.old) i free))) (orders_of self.new) reports.old reports.new }
        ensures spent { used reports.new + taken (orders_of self.new) ≤ used reports.old + taken (orders_of self.old) + 1 }
        ensures room { capacity reports.new ≡ capacity reports.old }
        ensures fewer { (a : ℕ) → later a (at (orders_of self.old) i) ≡ true → count_by (later (at (orders_of self.old) i).arrival) (orders_of self.new) < count_by (later a) (orders_of self.old) }
        ensures reach { Bounds (widened (at (orders_of self.new) i) market.reach) (orders_of self.new) }
    {
        let taker = self.orders.order(i);
        self.orders.clear(i);
        let left = self.trade_within(market, taker, reports);
        self.settle(market.away, i, before, &left, reports);
    }

    // Step three of a quote: each order still resting has its turn, in arrival order. No booked price is past the reach.
    fn turns(
        &mut self,
        mut market: Market,
        before: &[Order; 64],
        reports: &mut AppendList<'_, Report>,
    )
        requires { (used reports.old + taken (orders_of self.old) + 64 ≤ capacity reports.old) × (Bounds market.reach (orders_of self.old)) }
        ensures { (R : ℕ → Bool) → On R market.away → Came (turns (length (orders_of self.old)) market.away.best R 0 before.now (orders_of self.old)) (orders_of self.new) reports.old reports.new }
    {
        let mut last = 0;
        while let Some(i) = self.next_due(last, market, before) {
            last = self.orders.order(i).arrival;
            self.turn(market, i, &before[i], reports);
            market.reach = widened(&self.orders.order(i), market.reach);
        }
    }

    // Once the board is told a quote: every order booked past the away best is set to it, then each has its turn.
    pub fn quote(&mut self, away: Away, reports: &mut AppendList<'_, Report>)
        requires { used reports.old + 128 ≤ capacity reports.old }
        ensures { (R : ℕ → Bool) → On R away → Came (quote away.best R (orders_of self.old)) (orders_of self.new) reports.old reports.new }
    {
        let before = self.orders.all();
        let reach = self.orders.clamp_all(away);
        self.turns(Market { away, reach }, &before, reports);
    }
}
