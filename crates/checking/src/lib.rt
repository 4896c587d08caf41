// The check of a plan from elsewhere: whether each entry may stand where it stands.
#![tactic(auto)]

pub mod check;
mod entries;
