// The month in totals: the class of each job, the totals of a bundle's jobs, and the contents of a bundle.
#![tactic(auto)]

pub mod bundle;
pub mod class;
pub mod tally;
