// What a series asks of its book, and the cancel of one order.
ghost use Rattle.std.specs.Prelude.{◌≡◌, ℕ, ◌<◌, [], ◌∷◌, replicate, slice_set};
ghost use Rattle.values.specs.declared.reports.Report.TheVariants.{Cancelled};
ghost use Rattle.values.specs.declared.reports.Cause.TheVariants.{Asked};
ghost use Rattle.rules.specs.Book.{free, at, spot, taken, here};
ghost use Rattle.rules.specs.States.{named};
ghost use Rattle.records.specs.Contents.{used, capacity, Grown};
ghost use Rattle.table.specs.Places.{Inside, Vacant};
ghost use Rattle.book.specs.Books.{orders_of};

use super::Book;
use records::AppendList;
use rules::{Bests, Order};
use table::orders::Orders;
use values::reports::{Cause, Report};

impl Book {
    pub fn new() -> Book
        ensures { orders_of result ≡ replicate 64 free }
    {
        Book {
            orders: Orders::new(),
        }
    }

    // The order at a place; searches give places.
    pub fn order(&self, i: usize) -> Order
        requires { i < 64 }
        ensures { result ≡ at (orders_of self.now) i }
    {
        self.orders.order(i)
    }

    // The place of the resting order with this id.
    pub fn find(&self, id: u32) -> Option<usize>
        ensures found { result ≡ spot (named id) (orders_of self.now) }
        ensures inside { Inside result }
    {
        self.orders.find(id)
    }

    // A place that holds no order.
    pub fn vacancy(&self) -> Option<usize>
        ensures { Vacant (orders_of self.now) result }
    {
        self.orders.vacancy()
    }

    // How many orders rest.
    pub fn count(&self) -> u32
        ensures { result ≡ taken (orders_of self.now) }
    {
        self.orders.count()
    }

    // The best displayed bid and offer here.
    pub fn best(&self) -> Bests
        ensures { result ≡ here (orders_of self.now) }
    {
        self.orders.best()
    }

    // The desk cancels the order at a place.
    pub fn cancel(&mut self, i: usize, reports: &mut AppendList<'_, Report>)
        requires { (i < 64) × (used reports.old < capacity reports.old) }
        ensures book { orders_of self.new ≡ slice_set (orders_of self.old) i free }
        ensures reported { Grown reports.old (Cancelled (at (orders_of self.old) i).arrival (at (orders_of self.old) i).remaining Asked ∷ []) reports.new }
    {
        let order = self.orders.order(i);
        reports.push(Report::Cancelled {
            arrival: order.arrival,
            size: order.remaining,
            cause: Cause::Asked,
        });
        self.orders.clear(i);
    }
}
