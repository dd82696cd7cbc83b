// What each accepted call makes of the ledger.
ghost use Rattle.std.specs.Prelude.{◌≡◌, ℕ, ◌+◌, ◌<◌, ◌≤◌, Bool, [], replicate};
ghost use Rattle.records.specs.Contents.{used, capacity, Grown};
ghost use Rattle.rules.specs.States.{new, opening, dropping, replying};
ghost use Rattle.rules.specs.Slips.{sent_at};
ghost use Rattle.table.specs.Tables.{slips_in};
ghost use Rattle.table.specs.Away.{On};
ghost use Rattle.market.specs.Quotes.{absent};
ghost use Rattle.series.specs.States.{state, filled_part, unfilled_part, Requoted};

use super::Ledger;
use book::Book;
use records::AppendList;
use table::sides::Away;
use table::slips::SlipsOut;
use values::reports::{Cause, Report, Slip};

impl Ledger {
    pub fn new(wide: bool) -> Ledger
        ensures { state (replicate 15 absent) result ≡ new wide }
    {
        Ledger {
            opened: false,
            wide,
            book: Book::new(),
            sent: SlipsOut::new(),
            arrivals: 0,
            numbered: 0,
        }
    }

    pub fn open(&mut self)
        ensures { state [] self.new ≡ (opening (state [] self.old)).state }
    {
        self.opened = true;
    }

    // Once the board is told a quote: both steps. No twin of `cancel`: each passes a call of its own on to the book.
    pub fn quote(&mut self, away: Away, reports: &mut AppendList<'_, Report>)
        requires { used reports.old + 128 ≤ capacity reports.old }
        ensures { (R : ℕ → Bool) → On R away → Requoted R away.best (state [] self.old) (state [] self.new) reports.old reports.new }
    {
        self.book.quote(away, reports);
    }

    // The order at a place is cancelled because the desk asked for it.
    pub fn cancel(&mut self, i: usize, reports: &mut AppendList<'_, Report>)
        requires { (i < 64) × (used reports.old < capacity reports.old) }
        ensures after { state [] self.new ≡ (dropping (state [] self.old) i).state }
        ensures reported { Grown reports.old (dropping (state [] self.old) i).reports reports.new }
    {
        self.book.cancel(i, reports);
    }

    // The slip at a place is settled: the filled part, then the rest; neither is reported at 0.
    pub fn settle(&mut self, i: usize, filled: u32, reports: &mut AppendList<'_, Report>)
        requires { (i < 64) × ((used reports.old + 2 ≤ capacity reports.old) × (filled ≤ (sent_at (slips_in self.old.sent) i).slip.size)) }
        ensures after { state [] self.new ≡ (replying (state [] self.old) i filled).state }
        ensures reported { Grown reports.old (replying (state [] self.old) i filled).reports reports.new }
    {
        let slip = self.sent.slip(i);
        self.sent.settle(i);
        report_filled(slip, filled, reports);
        report_unfilled(slip, filled, reports);
    }
}

fn report_filled(slip: Slip, filled: u32, reports: &mut AppendList<'_, Report>)
    requires { used reports.old < capacity reports.old }
    ensures { Grown reports.old (filled_part slip filled) reports.new }
{
    if 0 < filled {
        reports.push(Report::FilledAway {
            arrival: slip.arrival,
            slip: slip.number,
            size: filled,
        });
    }
}

fn report_unfilled(slip: Slip, filled: u32, reports: &mut AppendList<'_, Report>)
    requires { used reports.old < capacity reports.old }
    ensures { Grown reports.old (unfilled_part slip filled) reports.new }
{
    if filled < slip.size {
        reports.push(Report::Cancelled {
            arrival: slip.arrival,
            size: slip.size - filled,
            cause: Cause::Unfilled,
        });
    }
}
