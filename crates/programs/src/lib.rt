// What the programs share: input read into a buffer, and the files that arguments name.
#![tactic(auto)]

pub mod files;
pub mod input;
