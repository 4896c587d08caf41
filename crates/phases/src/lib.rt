// What two engines share: the phases, round 0, what a pass leaves, and the laws of settling.
#![tactic(auto)]

pub mod begin;
pub mod phase;
