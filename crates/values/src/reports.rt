// What a series answers: reports, and slips to away exchanges.

// Why contracts are cancelled.
#[derive(Clone, Copy, PartialEq, Eq, Debug)]
pub enum Cause {
    // The desk asked for it.
    Asked,
    // The protection limit stands below what the order could rest at.
    Protection,
    // A market order without a protection limit has no price to rest at.
    NoPrice,
    // The away exchange did not fill them.
    Unfilled,
}

#[derive(Clone, Copy, PartialEq, Eq, Debug)]
pub enum Report {
    // An order is accepted.
    New {
        arrival: u32,
        id: u32,
    },
    // The taker, which is the order being processed, trades with the maker at the maker's booked price.
    Fill {
        taker: u32,
        maker: u32,
        price: u32,
        size: u32,
    },
    // An order rests at these prices.
    Booked {
        arrival: u32,
        booked: u32,
        displayed: u32,
        remaining: u32,
    },
    Cancelled {
        arrival: u32,
        size: u32,
        cause: Cause,
    },
    FilledAway {
        arrival: u32,
        slip: u32,
        size: u32,
    },
}

impl Report {
    // What memory for reports is filled with before the first.
    pub const BLANK: Report = Report::New { arrival: 0, id: 0 };
}

// Contracts sent to an away exchange.
#[derive(Clone, Copy, PartialEq, Eq, Debug)]
pub struct Slip {
    pub number: u32,
    pub arrival: u32,
    pub exchange: u32,
    pub price: u32,
    pub size: u32,
}

impl Slip {
    // What memory for slips is filled with before the first.
    pub const BLANK: Slip = Slip {
        number: 0,
        arrival: 0,
        exchange: 0,
        price: 0,
        size: 0,
    };
}
