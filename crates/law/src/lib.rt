//! The law of every run, proved: whatever is asked of a new series, and with whatever room, no fill is at a price that the
//! away best or an order's limits forbid, no displayed price locks the away best, no two orders rest that could trade, every
//! contract is accounted for, and the tables are what the history of calls, reports and slips says.
//! Knows runs of the rulebook's steps alone; the series shows that it takes these steps and no others.
#![tactic(auto)]

ghost use Rattle.rules.specs.Law.{Law};

// Every run of a new series is lawful, and its tables are kept.
pub fn law_stands()
    ensures { Law }
{}
