// What the field checks let through.
use market::any::AnyLadder;
use market::board::Quote;
use values::terms::{Kind, Mark, Origin, Side};

// A header's settings: the ladder, and whether market orders are let through in wide markets.
#[derive(Clone, Copy)]
pub struct Settings {
    pub ladder: AnyLadder,
    pub wide: bool,
}

#[derive(Clone, Copy)]
pub struct CheckedOrder {
    pub id: u32,
    pub firm: u32,
    pub side: Side,
    pub origin: Origin,
    pub kind: Kind,
    pub mark: Mark,
    pub limit: u32,
    pub size: u32,
    pub protection: u32,
}

// Not `Call` with a parameter for the order, which every clause that names a call would have to name.
#[derive(Clone, Copy)]
pub enum CheckedCall {
    Open,
    Away { exchange: u32, quote: Quote },
    Order(CheckedOrder),
    Cancel { id: u32 },
    Reply { slip: u32, filled: u32 },
}
