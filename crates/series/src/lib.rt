//! One series: the calls that a desk can make of it, over any ladder and any board.
//! Promises: each call gives exactly the reports, the slips and the new state of the rules, or the topmost fault with
//! everything as it was; and every run of calls from a new series keeps the law.
//! Knows of ladder and board their stated meaning alone.
#![tactic(auto)]

mod ledger;
mod runs;
mod series;
mod sight;

pub use runs::{Ask, run};
pub use series::Series;
