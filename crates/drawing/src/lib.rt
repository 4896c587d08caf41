// A plan drawn: the places that a run can come to, and these as a graph for Graphviz.
#![tactic(auto)]

pub mod graph;
pub mod reach;
