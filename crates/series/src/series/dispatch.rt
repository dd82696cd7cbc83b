// Any call.
ghost use Rattle.std.specs.Prelude.{◌≡◌, OnErr};
ghost use Rattle.records.specs.Contents.{contents};
ghost use Rattle.series.specs.Calls.{stands, room, free_places, Came, Lent, Follows, Untold};

use super::Series;
use market::board::Board;
use market::ladder::Ladder;
use records::AppendList;
use values::calls::Call;
use values::faults::Fault;
use values::reports::{Report, Slip};

impl<L: Ladder + Drop, B: Board + Drop> Series<L, B> {
    // A function of its own, so that the law, which follows from what came of the call, is proved once for every kind.
    fn by_kind(
        &mut self,
        call: Call,
        reports: &mut AppendList<'_, Report>,
        slips: &mut AppendList<'_, Slip>,
    ) -> Result<(), Fault>
        ensures came { Came (L.Ladder.rung self.old.ladder) call (room reports.old (free_places slips.old)) (stands B.Board.quotes self.old) (stands B.Board.quotes self.new) (contents reports.old) (contents reports.new) (contents slips.old) (contents slips.new) result }
        ensures whole { OnErr result (self.new ≡ self.old) }
        ensures ladder { self.new.ladder ≡ self.old.ladder }
        ensures board { Untold call self.old.board self.new.board }
        ensures reports { Lent result reports.old reports.new }
        ensures slips { Lent result slips.old slips.new }
    {
        match call {
            Call::Open => self.open(),
            Call::Away { exchange, quote } => self.away(exchange, quote, reports),
            Call::Order(fields) => self.order(fields, reports, slips),
            Call::Cancel { id } => self.cancel(id, reports),
            Call::Reply { slip, filled } => self.reply(slip, filled, reports),
        }
    }

    // Any call, with any fields and any room: a step of the rules, or their fault with everything as it was. Whatever
    // history led to the series as it was, with this call added it leads to the series as it is, and is lawful.
    pub fn call(
        &mut self,
        call: Call,
        reports: &mut AppendList<'_, Report>,
        slips: &mut AppendList<'_, Slip>,
    ) -> Result<(), Fault>
        ensures came { Came (L.Ladder.rung self.old.ladder) call (room reports.old (free_places slips.old)) (stands B.Board.quotes self.old) (stands B.Board.quotes self.new) (contents reports.old) (contents reports.new) (contents slips.old) (contents slips.new) result }
        ensures whole { OnErr result (self.new ≡ self.old) }
        ensures ladder { self.new.ladder ≡ self.old.ladder }
        ensures board { Untold call self.old.board self.new.board }
        ensures reports { Lent result reports.old reports.new }
        ensures slips { Lent result slips.old slips.new }
        ensures law { Follows (L.Ladder.rung self.old.ladder) call (room reports.old (free_places slips.old)) (stands B.Board.quotes self.old) (stands B.Board.quotes self.new) (contents reports.old) (contents reports.new) (contents slips.old) (contents slips.new) result }
    {
        self.by_kind(call, reports, slips)
    }
}
