// Exported calls of the crate `settings`.
#![tactic(auto)]

pub mod answer;
pub mod calls;
