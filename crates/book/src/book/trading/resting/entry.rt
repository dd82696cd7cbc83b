// Entry: an order that the monitor has passed trades, goes out and rests.
ghost use Rattle.std.specs.Prelude.{◌≡◌, ℕ, ◌+◌, ◌<◌, ◌≤◌, Bool, length};
ghost use Rattle.rules.specs.Routing.{routing};
ghost use Rattle.rules.specs.Resting.{fresh, enter};
ghost use Rattle.records.specs.Contents.{used, capacity};
ghost use Rattle.table.specs.Away.{On};
ghost use Rattle.book.specs.Books.{orders_of};
ghost use Rattle.book.specs.Passing.{terms_of};
ghost use Rattle.book.specs.Rests.{Dealt};

use crate::book::Book;
use crate::monitor::{Passed, terms_of};
use crate::routing::route;
use market::board::Quote;
use records::AppendList;
use rules::{Order, Terms};
use table::orders::place::nothing;
use table::sides::Away;
use values::reports::{Report, Slip};

// Which order it is: its arrival number, its free place, whether it may be routed, and how many slips were numbered before.
#[derive(Clone, Copy)]
pub struct Entry {
    pub arrival: u32,
    pub place: usize,
    pub routable: bool,
    pub numbered: u32,
}

fn entered_as(arrival: u32, terms: Terms) -> Order
    ensures { result ≡ fresh arrival terms }
{
    Order {
        arrival,
        terms,
        booked: 0,
        displayed: 0,
        remaining: terms.size,
    }
}

impl Book {
    // The passed order is spent: it is announced, trades, goes out in slips, and rests or is cancelled.
    // The fifteen quotes in a slice, whatever memory they lie in: an array would ask its callers to convert.
    pub fn enter(
        &mut self,
        passed: Passed,
        entry: Entry,
        away: Away,
        quotes: &[Quote],
        reports: &mut AppendList<'_, Report>,
        slips: &mut AppendList<'_, Slip>,
    )
        requires { (entry.place < 64) × ((entry.numbered ≤ 15000000) × ((length quotes.now ≡ 15) × ((used reports.old + 128 ≤ capacity reports.old) × (used slips.old + 15 ≤ capacity slips.old)))) }
        ensures { (R : ℕ → Bool) → On R away → Dealt (enter away.best R (routing entry.routable quotes.now away.best entry.numbered) entry.place entry.arrival (terms_of passed) (orders_of self.old)) (orders_of self.new) reports.old reports.new slips.old slips.new }
    {
        let terms = terms_of(passed);
        let taker = entered_as(entry.arrival, terms);
        reports.push(Report::New {
            arrival: entry.arrival,
            id: terms.id,
        });
        let left = self.trade(away.best, taker, reports);
        let rest = route(
            entry.routable,
            quotes,
            away.best,
            entry.numbered,
            left,
            slips,
        );
        self.settle(away, entry.place, &nothing(), &rest, reports);
    }
}
