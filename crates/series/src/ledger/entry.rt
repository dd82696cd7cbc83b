// The rows that ask whether an order can be entered.
ghost use Rattle.std.specs.Prelude.{◌≡◌, ℕ, suc, ◌+◌, ◌<◌, ◌≤◌, Bool, []};
ghost use Rattle.records.specs.Contents.{used, capacity};
ghost use Rattle.table.specs.Away.{On};
ghost use Rattle.checks.specs.Checked.{routable};
ghost use Rattle.book.specs.Passing.{terms_of};
ghost use Rattle.rules.specs.Resting.{enter};
ghost use Rattle.rules.specs.Routing.{routing};
ghost use Rattle.rules.specs.Book.{here};
ghost use Rattle.rules.specs.Faults.{in_use};
ghost use Rattle.series.specs.States.{state, Admitted};
ghost use Rattle.series.specs.Rows.{early_row, late_row, Placed};

use super::Ledger;
use super::filing::file_from;
use super::rows::report_row;
use book::{Entry, Passed};
use checks::checked::CheckedOrder;
use market::board::Quote;
use records::AppendList;
use rules::Bests;
use table::sides::Away;
use values::faults::SeriesFault;
use values::reports::{Report, Slip};

impl Ledger {
    pub fn wide(&self) -> bool
        ensures { result ≡ (state [] self.now).wide }
    {
        self.wide
    }

    // The best displayed bid and offer.
    pub fn here(&self) -> Bests
        ensures { result ≡ here (state [] self.now).orders }
    {
        self.book.best()
    }

    // The id rests, or is on a slip.
    fn uses(&self, id: u32) -> bool
        ensures { result ≡ in_use (state [] self.now) id }
    {
        self.book.find(id).is_some() || self.sent.carries(id)
    }

    fn early_row(&self, id: u32, reports: usize, slips: usize) -> Result<(), SeriesFault>
        ensures { result ≡ early_row (state [] self.now) id reports slips }
    {
        if !self.opened {
            return Err(SeriesFault::NotOpen);
        }
        report_row(reports)?;
        if slips < 15 {
            return Err(SeriesFault::NoRoomForSlips);
        }
        if self.uses(id) {
            return Err(SeriesFault::IdInUse);
        }
        Ok(())
    }

    fn late_row(&self, routable: bool) -> Result<(), SeriesFault>
        ensures { result ≡ late_row (state [] self.now) routable }
    {
        if self.arrivals >= 1_000_000 {
            return Err(SeriesFault::AllArrivalsUsed);
        }
        if routable && self.sent.vacancies() < 15 {
            return Err(SeriesFault::TooFewSlipsFree);
        }
        Ok(())
    }

    // A free place for the order.
    pub fn entry_row(
        &self,
        order: CheckedOrder,
        reports: usize,
        slips: usize,
    ) -> Result<usize, SeriesFault>
        ensures { Placed (state [] self.now) order reports slips result }
    {
        self.early_row(order.id, reports, slips)?;
        let place = self.book.vacancy().ok_or(SeriesFault::BookFull)?;
        self.late_row(order.routable())?;
        Ok(place)
    }

    // The passed order is entered by way of the free place, and its slips go out.
    // Each comes from elsewhere: the order from the monitor and from its checks, the place from a row, the market from
    // the board, the lists from the caller.
    pub fn enter(
        &mut self,
        passed: Passed,
        order: CheckedOrder,
        place: usize,
        away: Away,
        quotes: &[Quote; 15],
        reports: &mut AppendList<'_, Report>,
        slips: &mut AppendList<'_, Slip>,
    )
        requires ladder { (R : ℕ → Bool) × On R away }
        requires place { place < 64 }
        requires arrivals { (state [] self.old).arrivals < 1000000 }
        requires reports { used reports.old + 128 ≤ capacity reports.old }
        requires slips { used slips.old + 15 ≤ capacity slips.old }
        ensures { (R : ℕ → Bool) → On R away → Admitted (enter away.best R (routing (routable order) quotes.now away.best (state [] self.old).numbered) place (suc (state [] self.old).arrivals) (terms_of passed) (state [] self.old).orders) order.id (state [] self.old) (state [] self.new) reports.old reports.new slips.old slips.new }
    {
        let first = slips.used();
        let arrival = self.arrivals + 1;
        let entry = Entry {
            arrival,
            place,
            routable: order.routable(),
            numbered: self.numbered,
        };
        self.book.enter(passed, entry, away, quotes, reports, slips);
        let count = file_from(&mut self.sent, order.id, slips, first);
        self.numbered += count;
        self.arrivals = arrival;
    }
}
