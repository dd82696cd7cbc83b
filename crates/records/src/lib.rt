//! A list of records that grows at its end, in memory that the caller provides.
//! Promises: what it holds after each record, and how many more it can take.
//! Knows nothing of the records but that they can be copied.
#![tactic(auto)]

mod list;

pub use list::AppendList;
pub use list::methods::Full;
