// The two sides: each rule is told once, for an order of a side.
ghost use Rattle.std.specs.Prelude.{◌≡◌};
ghost use Rattle.rules.specs.Sides.{ok, past, top, facing};
ghost use Rattle.table.specs.Away.{backed};

use rules::Bests;
use values::terms::Side;

// The away best, with the rung under its offer and the rung over its bid; 0 is none, as in a quote.
// That they are these rungs is a clause (`On`) and no ghost field: it speaks of a ladder, of which the book knows nothing.
#[derive(Clone, Copy)]
pub struct Away {
    pub best: Bests,
    pub under: u32,
    pub over: u32,
}

// The price is no more aggressive than the bound.
pub fn within(side: Side, bound: u32, price: u32) -> bool
    ensures { result ≡ ok side bound price }
{
    match side {
        Side::Buy => bound == 0 || price <= bound,
        Side::Sell => bound <= price,
    }
}

// The price is beyond the bound.
pub fn beyond(side: Side, bound: u32, price: u32) -> bool
    ensures { result ≡ past side bound price }
{
    match side {
        Side::Buy => bound < price,
        Side::Sell => price < bound,
    }
}

// The better of two prices of a side: of bids the higher, of offers the lower that is present. The market tells it again, for the
// sides of a quote: it knows no `Side` of an order.
pub fn better(side: Side, x: u32, y: u32) -> u32
    ensures { result ≡ top side x y }
{
    match side {
        Side::Buy => x.max(y),
        Side::Sell => {
            if x == 0 {
                y
            } else if y == 0 {
                x
            } else {
                x.min(y)
            }
        }
    }
}

// The best price that a side trades with.
pub fn met(best: Bests, side: Side) -> u32
    ensures { result ≡ facing best side }
{
    match side {
        Side::Buy => best.offer,
        Side::Sell => best.bid,
    }
}

// The rung behind the away best that a side meets.
pub fn behind(away: Away, side: Side) -> u32
    ensures { result ≡ backed away side }
{
    match side {
        Side::Buy => away.under,
        Side::Sell => away.over,
    }
}
