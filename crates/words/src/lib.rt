//! The reports and slips of a series in plain words, prices as dollars and cents.
//! Promises: the bytes of every sentence; each figure in it is the one of the report or the slip.
//! Works nothing out: it knows no book, no board and no ladder.
#![tactic(auto)]

pub mod answers;
pub mod money;
