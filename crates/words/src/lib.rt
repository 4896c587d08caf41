// A job in words turned into bytes, or its faults told.
#![tactic(auto)]

mod goal;
pub mod turn;
