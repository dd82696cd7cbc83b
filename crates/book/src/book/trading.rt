// Trading: the taker meets the best contra order, again and again.
ghost use Rattle.std.specs.Prelude.{◌≡◌, ℕ, ◌+◌, ◌-◌, ◌<◌, ◌≤◌, min, [], ◌∷◌, length, slice_set};
ghost use Rattle.values.specs.declared.reports.Report.TheVariants.{Fill};
ghost use Rattle.rules.specs.Book.{at, with_rem, lower};
ghost use Rattle.rules.specs.Trading.{hit, trade};
ghost use Rattle.records.specs.Contents.{used, capacity, Grown};
ghost use Rattle.table.specs.Places.{Inside};
ghost use Rattle.book.specs.Books.{orders_of};

use super::Book;
use crate::caps::suits;
use records::AppendList;
use rules::{Bests, Order};
use values::reports::Report;

impl Book {
    // The place of the order that the taker trades with next.
    fn maker(&self, best: Bests, taker: &Order) -> Option<usize>
        ensures hit { result ≡ hit best taker.now (orders_of self.now) }
        ensures inside { Inside result }
    {
        if taker.remaining == 0 {
            return None;
        }
        let i = self.orders.best_contra(taker.terms.side)?;
        if suits(best, taker, self.orders.order(i).booked) {
            Some(i)
        } else {
            None
        }
    }

    // One fill, at the maker's booked price, for the lesser of what remains of the two.
    fn fill_one(&mut self, i: usize, taker: &mut Order, reports: &mut AppendList<'_, Report>)
        requires { (i < 64) × (used reports.old < capacity reports.old) }
        ensures taker { taker.new ≡ with_rem taker.old (taker.old.remaining - min taker.old.remaining (at (orders_of self.old) i).remaining) }
        ensures book { orders_of self.new ≡ slice_set (orders_of self.old) i (lower (at (orders_of self.old) i) (min taker.old.remaining (at (orders_of self.old) i).remaining)) }
        ensures reported { Grown reports.old (Fill taker.old.arrival (at (orders_of self.old) i).arrival (at (orders_of self.old) i).booked (min taker.old.remaining (at (orders_of self.old) i).remaining) ∷ []) reports.new }
    {
        let maker = self.orders.order(i);
        let size = taker.remaining.min(maker.remaining);
        reports.push(Report::Fill {
            taker: taker.arrival,
            maker: maker.arrival,
            price: maker.booked,
            size,
        });
        self.orders.lower(i, size);
        taker.remaining -= size;
    }

    // Trades until no order suits; what is left of the taker. Each fill does away with its maker or with the taker.
    fn trade(&mut self, best: Bests, taker: Order, reports: &mut AppendList<'_, Report>) -> Order
        requires { used reports.old + length (trade (length (orders_of self.old)) best taker (orders_of self.old)).out ≤ capacity reports.old }
        ensures taker { result ≡ (trade (length (orders_of self.old)) best taker (orders_of self.old)).taker }
        ensures book { orders_of self.new ≡ (trade (length (orders_of self.old)) best taker (orders_of self.old)).book }
        ensures reported { Grown reports.old (trade (length (orders_of self.old)) best taker (orders_of self.old)).out reports.new }
    {
        let mut left = taker;
        while let Some(i) = self.maker(best, &left) {
            self.fill_one(i, &mut left, reports);
        }
        left
    }
}

pub mod resting;
