//! Ladders of prices and boards of away quotes: the lower library, of which the series knows only the contracts.
//! Promises: which prices are rungs and which rungs stand next to a price; the quotes told, and the best of each side.
//! Knows nothing of orders.
#![tactic(auto)]

pub mod any;
pub mod board;
mod host;
pub mod ladder;
pub mod packed;
pub mod table;
