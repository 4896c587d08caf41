// Reading a job from bytes: its layout and counts or the first refusal, and what it says of a state, a goal state, a place or a record.
#![tactic(auto)]

pub mod accept;
pub mod ask;
mod body;
pub mod form;
pub mod layout;
