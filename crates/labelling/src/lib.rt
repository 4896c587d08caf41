// Labelling every place by rounds, and writing the plan.
#![tactic(auto)]

pub mod plan;
pub mod range;
mod round;
mod rounds;
pub mod scan;
