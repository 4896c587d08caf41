// Names in a text's lines: those that a line lists, those that it uses, and where the job and its goal start and are met.
#![tactic(auto)]

pub mod list;
pub mod name;
pub mod start;
pub mod tables;
