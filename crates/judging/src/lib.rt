// Judging a recorded run: whether a formula in bytes holds at the first label of a trace.
#![tactic(auto)]

mod read;
pub mod run;
mod walk;
