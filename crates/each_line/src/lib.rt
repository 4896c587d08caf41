// Each line of a text: its faults.
#![tactic(auto)]

pub mod line;
