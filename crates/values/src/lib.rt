//! The words of the model: calls as they are asked, what a series answers, and why one is refused.
//! Promises: the number, layer and place of every fault, and the bytes of everything that is written.
//! Knows nothing of books, ladders' rungs or how a line is read.
#![tactic(auto)]

pub mod calls;
pub mod faults;
pub mod reports;
pub mod terms;
pub mod texts;
pub mod writing;
