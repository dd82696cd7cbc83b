// Two boards, one with a table of its own and one over an array that the host lends, told the same quotes.
ghost use Rattle.std.specs.Prelude.{◌≡◌, replicate};
ghost use Rattle.market.specs.Packing.{unpacked, packed};
ghost use Rattle.market.specs.Quotes.{told, absent};

use market::board::{Board, Quote};
use market::packed::PackedBoard;
use market::table::TableBoard;

// Tells one quote to both: who had the same quotes before has the same after.
// Two boards, not a struct of both, which would ask of callers that they hold them in one place.
pub fn tell_both<X: Board, Y: Board>(one: &mut X, other: &mut Y, exchange: u32, quote: Quote)
    ensures one { X.Board.quotes one.new ≡ told (X.Board.quotes one.old) exchange quote }
    ensures other { Y.Board.quotes other.new ≡ told (Y.Board.quotes other.old) exchange quote }
    ensures agree { X.Board.quotes one.old ≡ Y.Board.quotes other.old → X.Board.quotes one.new ≡ Y.Board.quotes other.new }
{
    one.tell(exchange, quote);
    other.tell(exchange, quote);
}

// What a host that lends an array finds in it after one telling to a new board: the packed records, byte for byte.
// The array is the host's: a board has no memory of its own.
pub fn told_once(memory: &mut [u8; 240], exchange: u32, quote: Quote)
    ensures { memory.new ≡ packed (told (replicate 15 absent) exchange quote) }
{
    let mut board = PackedBoard::on(memory);
    board.tell(exchange, quote);
}
