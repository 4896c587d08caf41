// What a text lacks as a whole, and a job laid out in bytes.
#![tactic(auto)]

pub mod lack;
mod moves;
pub mod whole;
