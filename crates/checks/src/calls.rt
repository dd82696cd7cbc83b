// The field checks of a header and of every call. All of row 4 is judged before row 5, and row 5 before row 6.
ghost use Rattle.std.specs.Prelude.{◌≡◌};
ghost use Rattle.checks.specs.Checked.{checked_header, checked_away, checked_order, checked_cancel, checked_reply, checked_call, routable as may_be_routed};
ghost use Rattle.checks.specs.Law.{HeaderJudged, CallJudged};

use super::checked::{CheckedCall, CheckedOrder, Settings};
use super::fields::{handled, limit_by, on_ladder, size_beside, wide_by, within};
use super::letters::listed;
use market::board::Quote;
use market::ladder::Ladder;
use values::calls::{Call, Header, OrderFields};
use values::faults::CheckFault;
use values::terms::{Mark, Origin};

// The settings of a header, or the leftmost field of the topmost row that does not fit.
pub fn check_header(header: Header) -> Result<Settings, CheckFault>
    ensures value { result ≡ checked_header header }
    ensures leftmost { HeaderJudged header result }
{
    let ladder = listed(2, header.ladder)?;
    let wide = wide_by(header.width)?;
    Ok(Settings { ladder, wide })
}

pub fn check_away<L: Ladder>(
    ladder: &L,
    exchange: u32,
    quote: Quote,
) -> Result<CheckedCall, CheckFault>
    ensures { result ≡ checked_away (L.Ladder.rung ladder.now) exchange quote }
{
    within(1, 15, 2, exchange)?;
    within(0, 100_000, 3, quote.bid)?;
    size_beside(4, quote.bid, quote.bid_size)?;
    within(0, 100_000, 5, quote.offer)?;
    size_beside(6, quote.offer, quote.offer_size)?;
    on_ladder(ladder, 3, quote.bid)?;
    on_ladder(ladder, 5, quote.offer)?;
    Ok(CheckedCall::Away { exchange, quote })
}

pub fn check_order<L: Ladder>(ladder: &L, order: OrderFields) -> Result<CheckedOrder, CheckFault>
    ensures { result ≡ checked_order (L.Ladder.rung ladder.now) order }
{
    let id = within(1, 999_999, 2, order.id)?;
    let firm = within(1, 9_999, 3, order.firm)?;
    let side = listed(4, order.side)?;
    let origin = listed(5, order.origin)?;
    let kind = listed(6, order.kind)?;
    let mark = listed(7, order.mark)?;
    let limit = limit_by(kind, order.limit)?;
    let size = within(1, 9_999, 9, order.size)?;
    let protection = within(0, 20, 10, order.protection)?;
    let limit = on_ladder(ladder, 8, limit)?;
    let kind = handled(kind)?;
    Ok(CheckedOrder {
        id,
        firm,
        side,
        origin,
        kind,
        mark,
        limit,
        size,
        protection,
    })
}

pub fn check_cancel(id: u32) -> Result<CheckedCall, CheckFault>
    ensures { result ≡ checked_cancel id }
{
    within(1, 999_999, 2, id)?;
    Ok(CheckedCall::Cancel { id })
}

// The fields one by one, as each call has them: who calls from code has no line.
pub fn check_reply(slip: u32, filled: u32) -> Result<CheckedCall, CheckFault>
    ensures { result ≡ checked_reply slip filled }
{
    within(1, 15_000_000, 2, slip)?;
    within(0, 9_999, 3, filled)?;
    Ok(CheckedCall::Reply { slip, filled })
}

// The call with its values, or the leftmost field of the topmost row that does not fit.
pub fn check_call<L: Ladder>(ladder: &L, call: Call) -> Result<CheckedCall, CheckFault>
    ensures value { result ≡ checked_call (L.Ladder.rung ladder.now) call }
    ensures leftmost { CallJudged (L.Ladder.rung ladder.now) call result }
{
    match call {
        Call::Open => Ok(CheckedCall::Open),
        Call::Away { exchange, quote } => check_away(ladder, exchange, quote),
        Call::Order(fields) => {
            let order = check_order(ladder, fields)?;
            Ok(CheckedCall::Order(order))
        }
        Call::Cancel { id } => check_cancel(id),
        Call::Reply { slip, filled } => check_reply(slip, filled),
    }
}

impl CheckedOrder {
    // A public customer's order that may be routed.
    pub fn routable(&self) -> bool
        ensures { result ≡ may_be_routed self.now }
    {
        self.origin == Origin::Customer && self.mark == Mark::Route
    }
}
