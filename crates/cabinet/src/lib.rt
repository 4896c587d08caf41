// The calls for C, and the place that a caller holds.
#![tactic(auto)]

pub mod arm;
pub mod calls;
pub mod checks;
pub mod goals;
pub mod indexed;
pub mod judges;
pub mod place;
pub mod salvaging;
