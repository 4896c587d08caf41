// A plan told with names: what the plan says at a place, and why it is not winning.
#![tactic(auto)]

pub mod names;
pub mod range;
pub mod shown;
pub mod spoil;
pub mod told;
