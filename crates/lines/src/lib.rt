//! Lines in: the lines of an input, the fields of a line, and the header or the call that they write.
//! Promises: what is read, or the fault of the line, is an executable definition of the line's bytes; see laws.
//! Knows the words of `values` only: no book, no series, no range of any field.
#![tactic(auto)]

pub mod calls;
pub mod digits;
pub mod fields;
pub mod laws;
pub mod parts;
mod reading;
pub mod records;
