// The top of the away market, over any ladder and any board.
ghost use Rattle.std.specs.Prelude.{◌≡◌, ℕ, ◌<◌};
ghost use Rattle.morning.specs.Tops.{Top};

use market::board::Board;
use market::ladder::Ladder;

// A price of 0 is none, as a board answers it.
#[derive(Clone, Copy)]
pub struct Tops {
    pub bid: u32,
    pub bid_size: u64,
    pub above_bid: Option<u32>,
    pub offer: u32,
    pub offer_size: u64,
    pub below_offer: Option<u32>,
}

pub fn top<L: Ladder, B: Board>(ladder: &L, board: &B) -> Tops
    ensures { Top (L.Ladder.rung ladder.now) (B.Board.quotes board.now) result }
{
    let (bid, bid_size) = board.best_bid();
    let (offer, offer_size) = board.best_offer();
    Tops {
        bid,
        bid_size,
        above_bid: if bid > 0 { ladder.above(bid) } else { None },
        offer,
        offer_size,
        below_offer: if offer > 0 { ladder.below(offer) } else { None },
    }
}
