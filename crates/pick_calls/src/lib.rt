// Exported calls of the crate `pick`.
#![tactic(auto)]

pub mod answer;
pub mod calls;
