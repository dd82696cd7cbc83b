//! A day of lines through one series, and what is written for it.
//! Promises: what is written for any input is what the rules say for these bytes, by a lawful run of a new series, as the
//! answer itself or said in any other voice.
//! Knows the series by its dispatching call alone.
#![tactic(auto)]

mod days;
mod voice;

pub use days::{put_day, say_day};
pub use opening::start;
pub use voice::{Plain, Voice};
