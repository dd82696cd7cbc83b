// An order on its way to the book.
ghost use Rattle.std.specs.Prelude.{◌≡◌, OnErr};
ghost use Rattle.rules.specs.Book.{here};
ghost use Rattle.records.specs.Contents.{contents};
ghost use Rattle.values.specs.declared.calls.Call.TheVariants as call;
ghost use Rattle.series.specs.Calls.{stands, room, free_places, Came, Lent};
ghost use Rattle.series.specs.Entry.{passing};

use super::Series;
use crate::sight::{away_best, lowest, national, protection, quotes_of};
use book::{Entered, Passed, Sight, pass_monitor};
use checks::calls::check_order;
use checks::checked::CheckedOrder;
use market::board::Board;
use market::ladder::Ladder;
use records::AppendList;
use rules::Bests;
use table::sides::met;
use values::calls::OrderFields;
use values::faults::{Fault, MonitorFault};
use values::reports::{Report, Slip};

impl<L: Ladder + Drop, B: Board + Drop> Series<L, B> {
    // The monitor looks at the order, once, by the away best and the best displayed here.
    fn pass(&self, order: CheckedOrder, away: Bests) -> Result<Passed, MonitorFault>
        ensures { result ≡ passing (L.Ladder.rung self.now.ladder) (stands B.Board.quotes self.now).wide away (here (stands B.Board.quotes self.now).orders) order }
    {
        let here = self.ledger.here();
        let national = national(away, here);
        let rungs = order.protection;
        let entered = Entered {
            id: order.id,
            firm: order.firm,
            side: order.side,
            kind: order.kind,
            limit: order.limit,
            protection: protection(&self.ladder, order.side, rungs, met(national, order.side)),
            size: order.size,
        };
        let sight = Sight {
            national,
            here,
            lowest: lowest(&self.ladder),
            wide: self.ledger.wide(),
        };
        pass_monitor(entered, sight)
    }

    // An order: checked, passed by the monitor, entered.
    pub fn order(
        &mut self,
        fields: OrderFields,
        reports: &mut AppendList<'_, Report>,
        slips: &mut AppendList<'_, Slip>,
    ) -> Result<(), Fault>
        ensures came { Came (L.Ladder.rung self.old.ladder) (call.Order fields) (room reports.old (free_places slips.old)) (stands B.Board.quotes self.old) (stands B.Board.quotes self.new) (contents reports.old) (contents reports.new) (contents slips.old) (contents slips.new) result }
        ensures whole { OnErr result (self.new ≡ self.old) }
        ensures ladder { self.new.ladder ≡ self.old.ladder }
        ensures board { self.new.board ≡ self.old.board }
        ensures reports { Lent result reports.old reports.new }
        ensures slips { Lent result slips.old slips.new }
    {
        let order = check_order(&self.ladder, fields)?;
        let place = self.ledger.entry_row(order, reports.room(), slips.room())?;
        let away = away_best(&self.ladder, &self.board);
        let passed = self.pass(order, away.best)?;
        let quotes = quotes_of(&self.board);
        self.ledger
            .enter(passed, order, place, away, &quotes, reports, slips);
        Ok(())
    }
}
