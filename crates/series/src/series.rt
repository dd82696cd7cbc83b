use crate::ledger::Ledger;
use market::board::Board;
use market::ladder::Ladder;

// One series, over the ladder and the board that it was made with. Nothing but its calls changes it or its board.
#[derive(Drop)]
pub struct Series<L: Ladder + Drop, B: Board + Drop> {
    ladder: L,
    board: B,
    ledger: Ledger,
}

mod calls;
mod dispatch;
mod entry;
