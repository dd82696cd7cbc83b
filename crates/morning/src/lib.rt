//! A morning of away quotes: lines taken one at a time and told to two boards, and the top of the away market after each.
//! Promises: what each line tells; that both boards change by the same quotes; the best prices and the rungs next to them.
//! Knows ladders and boards by their contracts only.
#![tactic(auto)]

pub mod answers;
pub mod boards;
pub mod taking;
pub mod text;
pub mod tops;
