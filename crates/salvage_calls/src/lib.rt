// Exported calls of the crate `salvage`.
#![tactic(auto)]

pub mod answer;
pub mod calls;
