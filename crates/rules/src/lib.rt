// The small values that every layer passes around. What they mean stands in specs/.
#![tactic(auto)]

pub mod answer;
pub mod bytes;
pub mod entry;
pub mod place;
