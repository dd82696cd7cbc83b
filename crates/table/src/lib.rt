//! The tables of a series: the 64 places for resting orders, and the 64 for slips that are out.
//! Promises: which place each search finds, and that one place is changed while every other stays.
//! Cannot trade: it knows orders and prices, and nothing of reports, boards or ladders.
#![tactic(auto)]

pub mod orders;
pub mod sides;
pub mod slips;
