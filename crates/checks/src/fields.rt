// One number judged by itself.
ghost use Rattle.std.specs.Prelude.{◌≡◌};
ghost use Rattle.checks.specs.Fields.{within as judged_within, wide_by, size_beside, limit_by, on_ladder, handled as judged_kind};

use market::ladder::Ladder;
use values::faults::CheckFault;
use values::terms::Kind;

pub(crate) fn within(low: u32, high: u32, field: u32, n: u32) -> Result<u32, CheckFault>
    ensures { result ≡ judged_within low high field n }
{
    if (low..=high).contains(&n) {
        Ok(n)
    } else {
        Err(CheckFault::OutOfRange { field })
    }
}

// A match, not a conversion: no number converts to bool in std, and a type for one field would say no more.
pub(crate) fn wide_by(width: u32) -> Result<bool, CheckFault>
    ensures { result ≡ wide_by width }
{
    match width {
        0 => Ok(false),
        1 => Ok(true),
        _ => Err(CheckFault::OutOfRange { field: 3 }),
    }
}

// A quote's size beside its price: 0 exactly where the price is 0.
pub(crate) fn size_beside(field: u32, price: u32, size: u32) -> Result<u32, CheckFault>
    ensures { result ≡ size_beside field price size }
{
    if price == 0 {
        within(0, 0, field, size)
    } else {
        within(1, 99_999, field, size)
    }
}

// An order's limit: 0 exactly for a market order.
pub(crate) fn limit_by(kind: Kind, limit: u32) -> Result<u32, CheckFault>
    ensures { result ≡ limit_by kind limit }
{
    match kind {
        Kind::Market => within(0, 0, 8, limit),
        Kind::Limit | Kind::Immediate | Kind::AllOrNone => within(1, 100_000, 8, limit),
    }
}

// A price of 0 is none, and any other has to be a rung.
pub(crate) fn on_ladder<L: Ladder>(ladder: &L, field: u32, price: u32) -> Result<u32, CheckFault>
    ensures { result ≡ on_ladder (L.Ladder.rung ladder.now) field price }
{
    if price == 0 || ladder.is_rung(price) {
        Ok(price)
    } else {
        Err(CheckFault::OffLadder { field })
    }
}

pub(crate) fn handled(kind: Kind) -> Result<Kind, CheckFault>
    ensures { result ≡ judged_kind kind }
{
    match kind {
        Kind::Limit | Kind::Market => Ok(kind),
        Kind::Immediate | Kind::AllOrNone => Err(CheckFault::KindNotHandled),
    }
}
