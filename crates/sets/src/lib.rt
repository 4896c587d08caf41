// Sets as bits, by value: propositions in a label byte, actions in 16 bits, places in words of 64.
#![tactic(auto)]

pub mod actions;
pub mod label;
pub mod places;
