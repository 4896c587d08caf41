// A second engine: it works backward from accepted places, with an index of the records that lead to each state.
#![tactic(auto)]

mod counts;
mod index;
mod layer;
mod layers;
mod note;
pub mod plan;
mod queue;
mod step;
mod words;
