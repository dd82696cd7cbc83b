// Resting: the rest of an order is booked, or cancelled.
ghost use Rattle.std.specs.Prelude.{◌≡◌, ℕ, ◌<◌, ◌≤◌, ◌&&◌};
ghost use Rattle.rules.specs.Resting.{cause_of};
ghost use Rattle.rules.specs.Book.{Live, prices_of};
ghost use Rattle.records.specs.Contents.{used, capacity, Grown};
ghost use Rattle.book.specs.Books.{orders_of};
ghost use Rattle.book.specs.Rests.{rest_as, rest_on, settle_on, booked_at, Came};

use crate::book::Book;
use records::AppendList;
use rules::{Order, Prices, Terms};
use table::sides::{Away, behind, met, within};
use values::reports::{Cause, Report};
use values::terms::Side;

// Where an order rests.
fn prices_of(order: &Order) -> Prices
    ensures { result ≡ prices_of order.now }
{
    Prices {
        booked: order.booked,
        displayed: order.displayed,
    }
}

// Where the rest of an order of this side rests, if it does.
fn rest_as(side: Side, away: Away, terms: &Terms) -> Option<Prices>
    ensures { result ≡ rest_as side away terms.now }
{
    let Terms {
        limit,
        protection,
        ..
    } = *terms;
    let best = met(away.best, side);
    if best > 0 && within(side, limit, best) && within(side, protection, best) {
        Some(Prices {
            booked: best,
            displayed: behind(away, side),
        })
    } else if limit > 0 && within(side, protection, limit) {
        Some(Prices {
            booked: limit,
            displayed: limit,
        })
    } else {
        None
    }
}

// Where the rest of an order rests, if it does.
fn rest_at(away: Away, order: &Order) -> Option<Prices>
    ensures { result ≡ rest_on away order.now }
{
    rest_as(order.terms.side, away, &order.terms)
}

// Why a rest that has no price is cancelled.
fn cause(terms: &Terms) -> Cause
    ensures { result ≡ cause_of terms.now }
{
    if terms.protection > 0 {
        Cause::Protection
    } else {
        Cause::NoPrice
    }
}

// The place, its order before the call and its order now stay three arguments: each caller has them apart, so that a struct
// of them would be made at each call only to be taken apart. So it is with the list of the reports, which is lent.
impl Book {
    // The order rests in this place at these prices, which are reported where one is another than before.
    fn book_at(
        &mut self,
        i: usize,
        before: &Order,
        order: &Order,
        prices: Prices,
        reports: &mut AppendList<'_, Report>,
    )
        requires { (i < 64) × ((Live order.now) × (used reports.old < capacity reports.old)) }
        ensures { Came (booked_at i before.now order.now (orders_of self.old) prices) (orders_of self.new) reports.old reports.new }
    {
        let Prices { booked, displayed } = prices;
        self.orders.put(
            i,
            Order {
                booked,
                displayed,
                ..*order
            },
        );
        if prices_of(before) != prices {
            reports.push(Report::Booked {
                arrival: order.arrival,
                booked,
                displayed,
                remaining: order.remaining,
            });
        }
    }

    // The rest of an order comes to rest in this place, or is cancelled.
    fn settle(
        &mut self,
        away: Away,
        i: usize,
        before: &Order,
        order: &Order,
        reports: &mut AppendList<'_, Report>,
    )
        requires { (i < 64) × (used reports.old < capacity reports.old) }
        ensures { Came (settle_on away i before.now order.now (orders_of self.old)) (orders_of self.new) reports.old reports.new }
    {
        if order.remaining == 0 {
            return;
        }
        match rest_at(away, order) {
            Some(prices) => self.book_at(i, before, order, prices, reports),
            None => reports.push(Report::Cancelled {
                arrival: order.arrival,
                size: order.remaining,
                cause: cause(&order.terms),
            }),
        }
    }
}

pub mod entry;
mod turns;
