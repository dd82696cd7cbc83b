// The market as an order sees it: the away best with the rungs behind it, the national best, the protection limit.
ghost use Rattle.std.specs.Prelude.{◌≡◌, ℕ};
ghost use Rattle.rules.specs.Sides.{national};
ghost use Rattle.rules.specs.Monitor.{protect};
ghost use Rattle.rules.specs.Routing.{bests};
ghost use Rattle.market.specs.Rungs.{bottom};
ghost use Rattle.table.specs.Away.{On};

use market::board::{Board, Quote};
use market::ladder::{Ladder, down, up};
use rules::Bests;
use std::array;
use table::sides::{Away, better};
use values::terms::Side;

// The away best, with the rung under its offer and the rung over its bid.
pub fn away_best<L: Ladder, B: Board>(ladder: &L, board: &B) -> Away
    ensures best { result.best ≡ bests (B.Board.quotes board.now) }
    ensures rungs { On (L.Ladder.rung ladder.now) result }
{
    let (bid, _) = board.best_bid();
    let (offer, _) = board.best_offer();
    Away {
        best: Bests { bid, offer },
        under: ladder.below(offer).unwrap_or(0),
        over: ladder.above(bid).unwrap_or(0),
    }
}

// All fifteen quotes, in an array: a call takes nothing from the heap.
pub fn quotes_of<B: Board>(board: &B) -> [Quote; 15]
    ensures { result ≡ B.Board.quotes board.now }
{
    array::from_fn(|i| board.quote(i as u32 + 1))
}

// The best of two markets together.
pub fn national(away: Bests, here: Bests) -> Bests
    ensures { result ≡ national away here }
{
    Bests {
        bid: better(Side::Buy, away.bid, here.bid),
        offer: better(Side::Sell, away.offer, here.offer),
    }
}

// So many rungs past the national best of the other side; none where no rungs are asked for, or that side is absent.
// No limit is 0 and not a case of its own, as an absent price is in every line and in the book.
pub fn protection<L: Ladder>(ladder: &L, side: Side, rungs: u32, best: u32) -> u32
    ensures { result ≡ protect (L.Ladder.rung ladder.now) side rungs best }
{
    if rungs == 0 || best == 0 {
        return 0;
    }
    match side {
        Side::Buy => up(ladder, best, rungs),
        Side::Sell => down(ladder, best, rungs),
    }
}

// The lowest rung by the rules' word for it, where the ladder says only that it is a rung and that none lies below.
pub fn lowest<L: Ladder>(ladder: &L) -> u32
    ensures { result ≡ bottom (L.Ladder.rung ladder.now) }
{
    ladder.lowest()
}
