// The faults of a text told in lines, and the name that a misspelt word may stand for.
#![tactic(auto)]

pub mod fault;
mod near;
