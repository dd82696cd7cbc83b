//! A day of lines told in words: one line of text for each line of the input.
//! Promises: what is told for any input is the telling of a day as the rules have it, by the same lawful run of a new series.
//! Knows the series by its dispatching call alone.
#![tactic(auto)]

mod days;
mod fields;
mod paragraphs;
mod told;

pub use days::put_telling;
