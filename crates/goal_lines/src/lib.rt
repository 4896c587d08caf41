// The lines of a text that say a goal's clauses and rows: what is wrong with each.
#![tactic(auto)]

pub mod clause;
pub mod row;
