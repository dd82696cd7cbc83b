//! The rulebook as definitions in specs/, over the values below: what each call makes of a series, which calls are
//! refused and why, and the law that every run of calls keeps. The series and the law cite these definitions.
//! Knows ladders by their rungs and boards by their quotes alone; nothing here carries a call out.
#![tactic(auto)]

ghost use Rattle.rules.specs.Day.{OneDay};

use values::reports::Slip;
use values::terms::{Kind, Side};

// What an order was entered with. A limit or a protection limit of 0 bounds nothing; 0 and no Option, as for every price here:
// the lines and the reports write 0, and the rules compare prices as numbers.
#[derive(Clone, Copy)]
pub struct Terms {
    pub id: u32,
    pub firm: u32,
    pub side: Side,
    pub kind: Kind,
    pub limit: u32,
    pub protection: u32,
    pub size: u32,
}

// A place of the book; it is free where nothing remains. No Option: a search looks at numbers alone, and a free place is all zeros.
#[derive(Clone, Copy)]
pub struct Order {
    pub arrival: u32,
    pub terms: Terms,
    pub booked: u32,
    pub displayed: u32,
    pub remaining: u32,
}

// Where an order rests: the price that it trades at, and the one that is shown, 0 where there is none, as a report writes it.
#[derive(Clone, Copy, PartialEq, Eq)]
pub struct Prices {
    pub booked: u32,
    pub displayed: u32,
}

// The best bid and the best offer of a market; 0 is none, as in a quote.
#[derive(Clone, Copy)]
pub struct Bests {
    pub bid: u32,
    pub offer: u32,
}

// A place for a slip that is out, with the id of its order; it is free where the slip has no size.
// No Option, as for an order.
#[derive(Clone, Copy)]
pub struct Sent {
    pub slip: Slip,
    pub id: u32,
}

// How many more records the two lists of a call can take.
#[derive(Clone, Copy)]
pub struct Room {
    pub reports: u32,
    pub slips: u32,
}

// One day, call by call, is a run of a new series.
pub fn day_stands()
    ensures { OneDay }
{}
