//! The book of a series: the monitor, trading, routing's shares, resting, and the turns of a quote.
//! Promises: each is what the rules say, and an order trades only once the monitor has passed it.
//! Plain code: what it needs of the away market and of the ladder comes in as numbers.
#![tactic(auto)]

mod book;
mod caps;
mod monitor;
mod routing;

pub use book::Book;
pub use book::trading::resting::entry::Entry;
pub use monitor::{Entered, Passed, Sight, pass_monitor};
