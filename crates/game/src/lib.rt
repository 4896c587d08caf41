// The game of choosing against outcomes, on any kind of place: what it is stands in specs/, its laws in proofs/.
#![tactic(auto)]

pub mod entry;
