// Goals from slips: the Goal body of a job, written from up to three clauses.
#![tactic(auto)]

mod body;
mod clause;
pub mod goal;
pub mod kind;
