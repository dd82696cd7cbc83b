//! The field checks: whether the fields of a call, whoever made it, are numbers and letters that the exchange knows.
//! Promises: the leftmost field of the topmost row of the fault table that does not fit, or the call with its values.
//! Knows nothing of lines or of the series; of the ladder only its rungs.
#![tactic(auto)]

pub mod calls;
pub mod checked;
mod fields;
mod letters;
