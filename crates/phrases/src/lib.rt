//! What a desk asked, and why it was refused, in plain words.
//! Promises: the bytes of every sentence; each figure in it is the one of the call or the fault.
//! Works nothing out: it knows no book, no board and no ladder.
#![tactic(auto)]

pub mod asked;
pub mod names;
pub mod refusals;
