ghost use Rattle.std.specs.Prelude.{◌*◌, ◌≤◌};

use book::Book;
use table::slips::SlipsOut;

// What a series keeps besides its ladder and its board.
#[derive(Drop)]
pub struct Ledger {
    opened: bool,
    wide: bool,
    book: Book,
    sent: SlipsOut,
    arrivals: u32,
    numbered: u32,
    ghost few: { arrivals ≤ 1000000 },
    ghost numbers: { numbered ≤ 15 * arrivals },
}

mod edits;
mod entry;
mod filing;
pub mod rows;
