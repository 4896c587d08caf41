// The table of a goal as a text says it: its rows, its final goal states, and its body in bytes.
#![tactic(auto)]

pub mod mark;
pub mod row;
pub mod table;
