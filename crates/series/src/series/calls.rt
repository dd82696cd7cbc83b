// The calls.
ghost use Rattle.std.specs.Prelude.{◌≡◌, ℕ, ◌+◌, ◌-◌, ◌<◌, ◌≤◌, [], OnErr};
ghost use Rattle.records.specs.Contents.{contents, used, capacity};
ghost use Rattle.values.specs.declared.calls.Call.TheVariants as call;
ghost use Rattle.rules.specs.declared.Room.{Room};
ghost use Rattle.rules.specs.States.{new};
ghost use Rattle.rules.specs.Steps.{Run};
ghost use Rattle.series.specs.Calls.{stands, room, Came, Lent};

use super::Series;
use crate::ledger::Ledger;
use crate::ledger::rows::report_row;
use crate::sight::away_best;
use checks::calls::{check_away, check_cancel, check_reply};
use market::board::{Board, Quote, clear};
use market::ladder::Ladder;
use records::AppendList;
use values::faults::Fault;
use values::reports::Report;

// Each call says for itself what it leaves as it was: who makes one call reads one contract.
impl<L: Ladder + Drop, B: Board + Drop> Series<L, B> {
    // A new series over any board, which is told that all fifteen exchanges are absent: the empty history.
    pub fn new(ladder: L, board: B, wide: bool) -> Series<L, B>
        ensures state { stands B.Board.quotes result ≡ new wide }
        ensures ladder { result.ladder ≡ ladder }
        ensures begins { Run (L.Ladder.rung ladder) wide [] (stands B.Board.quotes result) }
    {
        let mut board = board;
        clear(&mut board);
        Series {
            ladder,
            board,
            ledger: Ledger::new(wide),
        }
    }

    // The opening.
    pub fn open(&mut self) -> Result<(), Fault>
        ensures came { (m : Room) → Came (L.Ladder.rung self.old.ladder) call.Open m (stands B.Board.quotes self.old) (stands B.Board.quotes self.new) [] [] [] [] result }
        ensures whole { OnErr result (self.new ≡ self.old) }
        ensures ladder { self.new.ladder ≡ self.old.ladder }
        ensures board { self.new.board ≡ self.old.board }
    {
        self.ledger.open_row()?;
        self.ledger.open();
        Ok(())
    }

    // An away exchange quotes.
    pub fn away(
        &mut self,
        exchange: u32,
        quote: Quote,
        reports: &mut AppendList<'_, Report>,
    ) -> Result<(), Fault>
        ensures came { (k : ℕ) → Came (L.Ladder.rung self.old.ladder) (call.Away exchange quote) (room reports.old k) (stands B.Board.quotes self.old) (stands B.Board.quotes self.new) (contents reports.old) (contents reports.new) [] [] result }
        ensures whole { OnErr result (self.new ≡ self.old) }
        ensures ladder { self.new.ladder ≡ self.old.ladder }
        ensures reports { Lent result reports.old reports.new }
    {
        check_away(&self.ladder, exchange, quote)?;
        report_row(reports.room())?;
        self.board.tell(exchange, quote);
        let away = away_best(&self.ladder, &self.board);
        self.ledger.quote(away, reports);
        Ok(())
    }

    // A resting order is cancelled.
    pub fn cancel(&mut self, id: u32, reports: &mut AppendList<'_, Report>) -> Result<(), Fault>
        ensures came { (k : ℕ) → Came (L.Ladder.rung self.old.ladder) (call.Cancel id) (room reports.old k) (stands B.Board.quotes self.old) (stands B.Board.quotes self.new) (contents reports.old) (contents reports.new) [] [] result }
        ensures whole { OnErr result (self.new ≡ self.old) }
        ensures ladder { self.new.ladder ≡ self.old.ladder }
        ensures board { self.new.board ≡ self.old.board }
        ensures reports { Lent result reports.old reports.new }
    {
        check_cancel(id)?;
        let place = self.ledger.cancel_row(id, reports.room())?;
        self.ledger.cancel(place, reports);
        Ok(())
    }

    // A slip that is out is settled, so much of it filled.
    pub fn reply(
        &mut self,
        slip: u32,
        filled: u32,
        reports: &mut AppendList<'_, Report>,
    ) -> Result<(), Fault>
        ensures came { (k : ℕ) → Came (L.Ladder.rung self.old.ladder) (call.Reply slip filled) (room reports.old k) (stands B.Board.quotes self.old) (stands B.Board.quotes self.new) (contents reports.old) (contents reports.new) [] [] result }
        ensures whole { OnErr result (self.new ≡ self.old) }
        ensures ladder { self.new.ladder ≡ self.old.ladder }
        ensures board { self.new.board ≡ self.old.board }
        ensures reports { Lent result reports.old reports.new }
    {
        check_reply(slip, filled)?;
        let place = self.ledger.reply_row(slip, filled, reports.room())?;
        self.ledger.settle(place, filled, reports);
        Ok(())
    }
}
