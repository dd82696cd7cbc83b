// What a desk asks, as it was asked: any number and any letter may stand in a field.
use super::terms::Letter;
use market::board::Quote;

// The first line of a day: which ladder, and whether wide markets are let through (1) or not (0).
#[derive(Clone, Copy, PartialEq, Eq, Debug)]
pub struct Header {
    pub ladder: Letter,
    pub width: u32,
}

#[derive(Clone, Copy, PartialEq, Eq, Debug)]
pub struct OrderFields {
    pub id: u32,
    pub firm: u32,
    pub side: Letter,
    pub origin: Letter,
    pub kind: Letter,
    pub mark: Letter,
    pub limit: u32,
    pub size: u32,
    pub protection: u32,
}

#[derive(Clone, Copy, PartialEq, Eq)]
pub enum Call {
    Open,
    Away { exchange: u32, quote: Quote },
    Order(OrderFields),
    Cancel { id: u32 },
    Reply { slip: u32, filled: u32 },
}
