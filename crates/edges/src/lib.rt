//! The rulebook at its edges, and readings of it that are wrong: a table of worked examples over the definitions of `rules`.
//! Promises that every row holds; what happens to orders and quotes is shown on runs of a new series.
//! Nothing here carries a call out.
#![tactic(auto)]

ghost use Rattle.edges.specs.Edges.{Edges};

// Every row of the table of edges holds.
pub fn edges_stand()
    ensures { Edges }
{}
