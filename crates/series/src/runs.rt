// A whole run of a new series.
ghost use Rattle.std.specs.Prelude.{◌≡◌, length};
ghost use Rattle.series.specs.Calls.{stands};
ghost use Rattle.series.specs.Runs.{Ran, Took};

use crate::series::Series;
use market::board::Board;
use market::ladder::Ladder;
use records::AppendList;
use values::calls::Call;
use values::reports::{Report, Slip};

// A call, and how many places for reports and slips it is lent.
#[derive(Clone, Copy)]
pub struct Ask {
    pub call: Call,
    pub report_room: usize,
    pub slip_room: usize,
}

// One ask: lists over as much of the memory as it names, or all that there is.
// Reports and slips, not a struct of both: the caller may lend them from two places, and a series takes a list of each.
fn ask_one<L: Ladder + Drop, B: Board + Drop>(
    series: &mut Series<L, B>,
    ask: Ask,
    reports: &mut [Report],
    slips: &mut [Slip],
)
    ensures took { Took (L.Ladder.rung series.old.ladder) (length reports.old) (length slips.old) ask (stands B.Board.quotes series.old) (stands B.Board.quotes series.new) }
    ensures ladder { series.new.ladder ≡ series.old.ladder }
{
    let n = ask.report_room.min(reports.len());
    let k = ask.slip_room.min(slips.len());
    let mut told = AppendList::new(&mut reports[0..n]);
    let mut sent = AppendList::new(&mut slips[0..k]);
    let _answer = series.call(ask.call, &mut told, &mut sent);
}

// A new series, taken through any list of calls, each with any room. There is a history of these calls, with what came of
// each, that leads from the new series to this one; it is lawful, and the tables agree with it.
pub fn run<L: Ladder + Drop, B: Board + Drop>(
    ladder: L,
    board: B,
    wide: bool,
    asks: &[Ask],
    reports: &mut [Report],
    slips: &mut [Slip],
) -> Series<L, B>
    ensures { Ran (L.Ladder.rung ladder) wide (length reports.old) (length slips.old) asks.now (stands B.Board.quotes result) }
{
    let mut series = Series::new(ladder, board, wide);
    for ask in asks {
        ask_one(&mut series, *ask, reports, slips);
    }
    series
}
