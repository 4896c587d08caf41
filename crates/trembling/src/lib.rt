// Planning with slips of the arm: every larger place is labelled by rounds, and the plans are written, slips 0 first; and advice on such plans.
#![tactic(auto)]

pub mod advice;
pub mod plan;
mod round;
mod rounds;
mod scan;
mod set;
