// The lines of a text: their words, the names that they list, and what they say of moves and facts.
#![tactic(auto)]

pub mod line;
pub mod names;
pub mod numbers;
pub mod says;
pub mod word;
