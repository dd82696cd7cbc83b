// The monitor: an order as it came in goes on to trading, once, or is refused.
ghost use Rattle.std.specs.Prelude.{◌≡◌, ℕ, ◌+◌, ◌*◌, ◌<◌, ◌≤◌};
ghost use Rattle.rules.specs.Monitor.{verdict};
ghost use Rattle.book.specs.Passing.{judged, terms_of};

use rules::{Bests, Terms};
use values::faults::MonitorFault;
use values::terms::{Kind, Side};

// An order as it came in, with its protection limit. Not `Terms`, which can be copied: an order goes to the monitor once.
#[derive(Drop)]
pub struct Entered {
    pub id: u32,
    pub firm: u32,
    pub side: Side,
    pub kind: Kind,
    pub limit: u32,
    pub protection: u32,
    pub size: u32,
}

// An order that the monitor has passed. It cannot be made elsewhere, copied or let go: it is traded, once.
pub struct Passed {
    terms: Terms,
}

// What the monitor looks at: the national best, the best displayed here, the lowest rung and the width mark.
#[derive(Clone, Copy)]
pub struct Sight {
    pub national: Bests,
    pub here: Bests,
    pub lowest: u32,
    pub wide: bool,
}

// The kind and the limit that an order goes on with.
fn judge(sight: Sight, kind: Kind, side: Side, limit: u32) -> Result<(Kind, u32), MonitorFault>
    ensures { result ≡ verdict sight.wide sight.lowest sight.national sight.here kind side limit }
{
    let Sight {
        national,
        here,
        lowest,
        wide,
    } = sight;
    let nbb = u64::from(national.bid);
    let nbo = u64::from(national.offer);
    let mbo = here.offer;
    let price = u64::from(limit);
    match (kind, side) {
        (Kind::Market, _) if !wide && nbo > 0 && nbo >= nbb + 500 => Err(MonitorFault::WideMarket),
        (Kind::Market, Side::Sell) if nbb == 0 && mbo > 0 && mbo <= 10 => Ok((Kind::Limit, lowest)),
        (Kind::Market, Side::Sell) if nbb == 0 && nbo > 10 => Err(MonitorFault::NoBid),
        (Kind::Market, _) => Ok((kind, limit)),
        (_, Side::Buy) if nbo == 0 => Ok((kind, limit)),
        (_, Side::Buy) if nbo <= 50 && price >= nbo + 25 => Err(MonitorFault::BuyTooHigh),
        (_, Side::Buy) if nbo > 50 && (price >= nbo + 250 || 2 * price >= 3 * nbo) => Err(
            MonitorFault::BuyTooHigh,
        ),
        (_, Side::Sell) if nbb > 25 && (price + 250 <= nbb || 2 * price <= nbb) => Err(
            MonitorFault::SellTooLow,
        ),
        (_, _) => Ok((kind, limit)),
    }
}

pub fn pass_monitor(order: Entered, sight: Sight) -> Result<Passed, MonitorFault>
    ensures { result ≡ judged (verdict sight.wide sight.lowest sight.national sight.here order.kind order.side order.limit) order }
{
    let Entered {
        id,
        firm,
        side,
        kind,
        limit,
        protection,
        size,
    } = order;
    let (kind, limit) = judge(sight, kind, side, limit)?;
    let terms = Terms {
        id,
        firm,
        side,
        kind,
        limit,
        protection,
        size,
    };
    Ok(Passed { terms })
}

// What a passed order is entered with; only trading asks, and takes the order.
// Not `From`: an impl could be called from other crates, and only the book may spend a passed order.
pub fn terms_of(passed: Passed) -> Terms
    ensures { result ≡ terms_of passed }
{
    let Passed { terms } = passed;
    terms
}
